// The sheet of a host with a donor's steps in place of one of its own: the host's parts as they are, each followed by what is
// appended. What is appended is made first, so that the header is known, and with it whether the sheet passes a limit and fits.
#![tactic(auto)]

ghost use Rattle.std.specs.Prelude.{◌≡◌, false, ◌<◌, length};
ghost use Rattle.definitions.specs.Sheet.{steps};
ghost use Rattle.definitions.specs.Graft.{not_open};
ghost use Rattle.sheet.specs.Header.{InRange, header_of};
ghost use Rattle.sheet.specs.Admitted.{Accepted};
ghost use Rattle.merged_sheet.specs.Parts.{Few, head_and_pairs, records_with, text_and_code, header_with, PartsOf};
ghost use Rattle.merged_sheet.specs.Merging.{limited, Merging};

use appended_parts::{Appended, append_names, append_propositions};
use definitions::{Reason, Refusal};
use equal_conclusions::NumberedSheets;
use number::PAIR_SIZE;
use output::{Sink, Writer};
use renumbering::put_renumbered_steps;
use restating::put_header;
use sheet::{AdmittedSheet, Sheet};
use steps::STEP_SIZE;

// The room for the pairs of the most names or propositions.
const PAIR_ROOM: usize = PAIR_SIZE * Sheet::NAME_LIMIT;

// Memory for what is appended, as large as a sheet can need: where each part is to stand is known only once all is counted, and there
// is no heap.
#[derive(Drop)]
struct PartMemory {
    name_pairs: [u8; PAIR_ROOM],
    text: [u8; Sheet::TEXT_LIMIT],
    proposition_pairs: [u8; PAIR_ROOM],
    code: [u8; Sheet::CODE_LIMIT],
}

// The header of the merged sheet, and what is appended to the host's parts.
#[derive(Clone, Copy)]
struct NewParts<'a> {
    header: Sheet,
    name_pairs: &'a [u8],
    text: &'a [u8],
    proposition_pairs: &'a [u8],
    code: &'a [u8],
}

// The header of the merged sheet, and all pairs.
#[tactic(auto, unfolding(crate::specs::Parts::head_and_pairs))]
fn put_pairs<S: Sink<u8>>(sink: &mut S, host: &AdmittedSheet, new: &NewParts)
    requires { InRange new.now.header }
    ensures { S.puts sink.old (head_and_pairs host.now new.now) sink.new }
{
    put_header(sink, new.header);
    sink.put_all(host.name_pairs());
    sink.put_all(new.name_pairs);
    sink.put_all(host.proposition_pairs());
    sink.put_all(new.proposition_pairs);
}

// The host's steps, with the donor's in place of step k.
#[tactic(auto, using(crate::proofs::Bytes::few_steps, crate::proofs::Bytes::records_long), unfolding(definitions::specs::Sheet::step_size, definitions::specs::Sheet::step_limit))]
fn put_records<S: Sink<u8>>(sink: &mut S, sheets: &NumberedSheets, k: usize)
    requires { k < steps sheets.now.host.now }
    ensures { S.puts sink.old
        (records_with sheets.now.host.now k sheets.now.donor.now sheets.now.numbers.now) sink.new }
{
    let h = sheets.host.header();
    let g = sheets.donor.header();
    let records = sheets.host.step_records();
    let before = &records[..STEP_SIZE * k];
    let after = &records[STEP_SIZE * (k + 1)..];
    let grafted = sheets.donor.step_records();
    sink.put_all(before);
    put_renumbered_steps(grafted, g.steps, h.propositions, sheets.numbers, sink);
    sink.put_all(after);
}

// The text and the code.
#[tactic(auto, unfolding(crate::specs::Parts::text_and_code))]
fn put_text_and_code<S: Sink<u8>>(sink: &mut S, host: &AdmittedSheet, new: &NewParts)
    ensures { S.puts sink.old (text_and_code host.now new.now) sink.new }
{
    sink.put_all(host.text_bytes());
    sink.put_all(new.text);
    sink.put_all(host.code_bytes());
    sink.put_all(new.code);
}

// The header of the merged sheet, by those of the two and what is appended.
#[tactic(auto, unfolding(definitions::specs::Sheet::text_limit, definitions::specs::Sheet::name_limit, definitions::specs::Sheet::code_limit, definitions::specs::Sheet::proposition_limit, definitions::specs::Sheet::step_limit, crate::specs::Parts::header_with))]
fn merged_header(h: Sheet, g: Sheet, names: Appended, propositions: Appended) -> Sheet
    requires { InRange h × InRange g × Few names × Few propositions }
    ensures { result ≡ header_with h g names propositions }
{
    Sheet {
        text_length: h.text_length + names.length,
        names: h.names + names.count,
        code_length: h.code_length + propositions.length,
        propositions: h.propositions + g.propositions,
        steps: h.steps + g.steps - 1,
        goal: h.goal,
    }
}

// What is appended, and the header that the merged sheet has with it.
#[tactic(auto, unfolding(definitions::specs::Sheet::pair_size, definitions::specs::Sheet::name_limit, definitions::specs::Sheet::text_limit))]
fn append_parts<'a>(sheets: &NumberedSheets, memory: &'a mut PartMemory) -> NewParts<'a>
    ensures parts { PartsOf sheets.now.host.now sheets.now.donor.now result }
    ensures accepted { Accepted sheets.now.host.now × Accepted sheets.now.donor.now }
{
    let h = sheets.host.header();
    let g = sheets.donor.header();
    let names = append_names(sheets, &mut memory.name_pairs, &mut memory.text);
    let propositions = append_propositions(
        sheets.donor,
        sheets.numbers,
        h.code_length,
        &mut memory.proposition_pairs,
        &mut memory.code,
    );
    let header = merged_header(h, g, names, propositions);
    NewParts {
        header,
        name_pairs: &memory.name_pairs[..PAIR_SIZE * names.count],
        text: &memory.text[..names.length],
        proposition_pairs: &memory.proposition_pairs[..PAIR_SIZE * propositions.count],
        code: &memory.code[..propositions.length],
    }
}

// The merged sheet, where it passes no limit and fits. The answer is its header. Whether its levels pass their limit is told, since it
// is counted by the tables of sizes, which nothing here reads.
pub fn merge(
    sheets: &NumberedSheets,
    k: usize,
    deep: bool,
    out: &mut [u8],
) -> Result<Sheet, Refusal>
    requires { not_open sheets.now.host.now k ≡ false }
    ensures { Merging (limited sheets.now.host.now sheets.now.donor.now k deep (length out.old))
        out.old out.new result }
{
    let mut memory = PartMemory {
        name_pairs: [0u8; PAIR_ROOM],
        text: [0u8; Sheet::TEXT_LIMIT],
        proposition_pairs: [0u8; PAIR_ROOM],
        code: [0u8; Sheet::CODE_LIMIT],
    };
    let new = append_parts(sheets, &mut memory);
    let m = new.header;
    if m.out_of_range() || deep {
        return Err(Reason::MergedLimit.at(0));
    }
    if out.len() < m.layout().end {
        return Err(Reason::Room.at(0));
    }
    let host = sheets.host;
    let mut writer = Writer { out, to: 0 };
    put_pairs(&mut writer, host, &new);
    put_records(&mut writer, sheets, k);
    put_text_and_code(&mut writer, host, &new);
    Ok(m)
}
