// The public operations on terms, for every input: each equals a definition.
#![tactic(auto)]

ghost use Rattle.std.specs.Prelude.{◌≡◌};
ghost use Rattle.definitions.specs.CallerNames.{names_in};
ghost use Rattle.definitions.specs.TermReader.{read_answer};
ghost use Rattle.skriduhol_terms.specs.Judged.{JudgesOf};
ghost use Rattle.skriduhol_terms.specs.Reading.{reading_of, ReadsOf, RestoresOf, MeansTerm};

use definitions::Located;
use located::locate;
use term_reader::TermSize;

// The judgement that the sheet's own term checks against its proposition k, from hypotheses given as a name's number and a
// proposition's number each, the latest last: the node of the term at which the rules stop, or none where they derive it; or a refusal
// with its column.
pub fn judge(s: &[u8], hypotheses: &[u16], k: usize) -> Result<Option<usize>, Located>
    ensures { JudgesOf s.now hypotheses.now k result }
{
    let judged = judgement::judge(s, hypotheses, k);
    judged.map_err(|refusal| locate(s, refusal))
}

// How large the term is whose strict text these bytes are: what `read_term` answers given room, and never 16.
pub fn read_term_length(text: &[u8], types: &[u8]) -> Result<TermSize, Located>
    ensures { result ≡ reading_of (read_answer (names_in types.now) text.now) }
{
    let size = term_reader::term_size(text, types);
    size.map_err(Located::from)
}

// The term whose strict text these bytes are, without declarations; the datatypes are listed with newlines between their names. Its
// records, the pairs of its names, which mark them in the text, and its labels' code stand at the start of the lent memory: three
// slices, as the caller lends them, since the lengths are asked of `read_term_length` and no memory of the library's own is handed out.
pub fn read_term(
    text: &[u8],
    types: &[u8],
    records: &mut [u16],
    names: &mut [u8],
    code: &mut [u8],
) -> Result<TermSize, Located>
    ensures reads_of { ReadsOf types.now text.now
        records.old names.old code.old
        records.new names.new code.new result }
    ensures restores_of { RestoresOf types.now text.now
        records.old names.old code.old
        records.new names.new code.new result }
    ensures means_term { MeansTerm types.now text.now
        records.new names.new code.new result }
{
    let read = term_reader::read_term(text, types, records, names, code);
    read.map_err(Located::from)
}
