// A refusal as it is handed back: with the column of the step that it names, and as a line.
#![tactic(auto)]

ghost use Rattle.std.specs.Prelude.{◌≡◌, ◌≤◌, length, unwrap_or};
ghost use Rattle.definitions.specs.Sheet.{column, step_records};
ghost use Rattle.definitions.specs.Answers.{names_step, located, column_words, refusal_line};
ghost use Rattle.output.specs.Wrote.{Wrote};
ghost use Rattle.sheet.specs.Header.{header_of, HasHeader};
ghost use Rattle.located.specs.AfterHeader.{AfterHeader};

use definitions::{Located, Reason, Refusal};
use output::sink::put_decimal;
use output::{Sink, Writer};
use sheet::{HeadedSheet, Sheet};
use steps::step_at;

// The place of refusals 9 to 15 is a step.
#[tactic(auto, unfolding(definitions::specs::Answers::names_step))]
fn names_step(refusal: Refusal) -> bool
    ensures { result ≡ names_step refusal }
{
    (Reason::StepField as u8..=Reason::NoUniversal as u8).contains(&refusal.number)
}

// The column of a step, if there is such a step.
#[tactic(auto, unfolding(steps::specs::StepAt::step_at))]
fn column_at(s: &[u8], k: usize) -> Option<u16>
    requires { HasHeader s.now (header_of s.now) }
    ensures { unwrap_or result 0 ≡ column (step_records s.now) k }
{
    let h = Sheet::header(s).ok()?;
    if h.steps <= k {
        return None;
    }
    let sheet = HeadedSheet {
        bytes: s,
        header: h,
    };
    let step = step_at(sheet.step_records(), k);
    Some(step.column)
}

// A refusal with the column of the step that it names, or 0 where it names none or there is no such step.
#[tactic(auto, unfolding(definitions::specs::Answers::located, definitions::specs::Answers::column_of))]
pub fn locate(s: &[u8], refusal: Refusal) -> Located
    requires { AfterHeader s.now refusal }
    ensures { result ≡ located s.now refusal }
{
    if names_step(refusal) {
        let column = column_at(s, refusal.place as usize).unwrap_or(0);
        return Located { refusal, column };
    }
    Located::from(refusal)
}

// ` column K` for a refusal that names a step.
#[tactic(auto, unfolding(definitions::specs::Answers::column_words))]
fn put_column<S: Sink<u8>>(sink: &mut S, located: Located)
    ensures { S.puts sink.old (column_words located) sink.new }
{
    if names_step(located.refusal) {
        sink.put_all(b" column ");
        put_decimal(sink, located.column as u64);
    }
}

// `refused R at P`, ` column K` for a refusal that names a step, and a newline.
fn put_line<S: Sink<u8>>(sink: &mut S, located: Located)
    ensures { S.puts sink.old (refusal_line located) sink.new }
{
    let refusal = located.refusal;
    sink.put_all(b"refused ");
    put_decimal(sink, refusal.number as u64);
    sink.put_all(b" at ");
    put_decimal(sink, refusal.place as u64);
    put_column(sink, located);
    sink.put(b'\n');
}

// The line of a refusal in lent memory: at most 34 bytes. A Display would stop with an error where the memory ends, and this tells the
// position past it.
pub fn put_refusal(out: &mut [u8], located: Located) -> usize
    ensures wrote { Wrote (refusal_line located) out.old 0 out.new result }
    ensures located_len_bound { length (refusal_line located) ≤ 34 }
{
    let mut writer = Writer { out, to: 0 };
    put_line(&mut writer, located);
    writer.to
}
