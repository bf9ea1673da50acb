// A graft, for every two sequences of bytes, every step and every room: the donor's steps in place of a Sorry step of the host that
// has no premisses; or the first of the host's 1 to 11, the donor's, 26, 27, 28 and 16, and whose it is.
#![tactic(auto)]

ghost use Rattle.std.specs.Prelude.{◌≡◌, false, ℕ, ◌+◌, ◌≤◌, ◌<◌, length, take, ltb, Ok};
ghost use Rattle.definitions.specs.Sheet.{tree_nesting_limit, names, steps};
ghost use Rattle.definitions.specs.Tree.{height, root_of};
ghost use Rattle.definitions.specs.Graft.{not_open, graft, graft_answer};
ghost use Rattle.graft_laws.specs.Levels.{above};
ghost use Rattle.graft_laws.specs.Merges.{Merges};
ghost use Rattle.output.specs.Written.{Fills};
ghost use Rattle.merged_names.specs.Numbered.{Numbered};
ghost use Rattle.sheet.specs.Admitted.{Accepted};
ghost use Rattle.restating.specs.Slots.{slots_after};
ghost use Rattle.merged_sheet.specs.Merging.{Merging};
ghost use Rattle.grafting.specs.Answered.{equal_and_limited, FillsBy, slots_by};

use definitions::{Reason, Refusal, Whose};
use equal_conclusions::{NumberedSheets, same_conclusion};
use merged_names::{IndexedSheets, fill_numbers, index_names};
use merged_sheet::merge;
use name_index::{SLOT_COUNT, build};
use sheet::{AdmittedSheet, Sheet, SizedSheet};
use steps::{Rule, premiss_count, rule_byte};
use vocabulary::Memory;

// The byte of the rule Sorry.
const SORRY: u8 = Rule::Sorry as u8;

// 26: the host step is no Sorry without premisses.
#[tactic(auto, using(crate::proofs::Tests::step_there), unfolding(definitions::specs::Graft::not_open, definitions::specs::Encode::rule_number, sheet::specs::Header::header_of))]
fn not_open(host: &AdmittedSheet, k: usize) -> bool
    ensures { result ≡ not_open host.now k }
{
    let records = host.step_records();
    host.header().steps <= k || (rule_byte(records, k) != SORRY || premiss_count(records, k) != 0)
}

// How many steps stand above step k: the later ones whose trees reach it.
fn steps_above(host: &SizedSheet, k: usize) -> usize
    requires { k < steps host.now }
    ensures { (result ≡ above k (root_of host.now)) × (result ≤ 1024) }
{
    let h = host.admitted().header();
    let sizes = host.sizes();
    (k + 1..h.steps)
        .filter(|&j| j < k + usize::from(sizes[j]))
        .count()
}

// Here and below host, step and donor are three parameters and no struct: what is known of the step, that the host has it, is asked by
// two functions alone, and each clause would say `graft.now.host.now` for `host.now`.

// 28, the levels: the steps above the host step and the donor's levels pass 256.
#[tactic(auto, unfolding(definitions::specs::Sheet::tree_nesting_limit))]
fn too_deep(host: &SizedSheet, k: usize, donor: &SizedSheet) -> bool
    requires { k < steps host.now }
    ensures { result ≡ ltb tree_nesting_limit
        (above k (root_of host.now) + height (root_of donor.now)) }
{
    let levels = donor.root_height() as usize;
    (Sheet::TREE_NESTING_LIMIT as usize) < steps_above(host, k) + levels
}

// Stores the numbers that the host's names and the donor's have in the merged sheet. One index of the host's names serves both, so
// that the function of `judgement`, which numbers one sheet's names by an index of its own, would build it a second time.
fn number_names(
    host: &AdmittedSheet,
    donor: &AdmittedSheet,
    host_numbers: &mut [u16; Sheet::NAME_LIMIT],
    donor_numbers: &mut [u16; Sheet::NAME_LIMIT],
)
    ensures host_numbered { Numbered host.now host.now (names host.now) host_numbers.new }
    ensures donor_numbered { Numbered host.now donor.now (names donor.now)
        donor_numbers.new }
    ensures accepted { Accepted host.now × Accepted donor.now }
{
    let mut host_slots = [0u16; SLOT_COUNT];
    let mut donor_slots = [0u16; SLOT_COUNT];
    let ours = index_names(host, &mut host_slots);
    let theirs = index_names(donor, &mut donor_slots);
    let one = IndexedSheets {
        host: ours,
        donor: ours,
    };
    let both = IndexedSheets {
        host: ours,
        donor: theirs,
    };
    fill_numbers(&one, host_numbers);
    fill_numbers(&both, donor_numbers);
}

// 27, 28 and 16 of an open step; or the merged sheet, of which the answer is the header. Whether the levels pass their limit is counted
// before, by the tables of sizes, and answered after 27.
fn merge_equal(
    host: &AdmittedSheet,
    k: usize,
    donor: &AdmittedSheet,
    deep: bool,
    out: &mut [u8],
) -> Result<Sheet, Refusal>
    requires { not_open host.now k ≡ false }
    ensures { Merging (equal_and_limited host.now donor.now k deep (length out.old))
        out.old out.new result }
{
    let mut host_numbers = [0u16; Sheet::NAME_LIMIT];
    let mut donor_numbers = [0u16; Sheet::NAME_LIMIT];
    number_names(host, donor, &mut host_numbers, &mut donor_numbers);
    let sheets = NumberedSheets {
        host,
        donor,
        numbers: &donor_numbers,
    };
    if !same_conclusion(&sheets, &host_numbers, k) {
        return Err(Reason::ConclusionsDiffer.at(0));
    }
    merge(&sheets, k, deep, out)
}

// 26 and then these.
fn graft_accepted(
    host: &SizedSheet,
    k: usize,
    donor: &SizedSheet,
    out: &mut [u8],
) -> Result<Sheet, Refusal>
    ensures merging { Merging (graft host.now donor.now k (length out.old))
        out.old out.new result }
    ensures accepted { Accepted host.now × Accepted donor.now }
{
    let h = host.admitted();
    let g = donor.admitted();
    if not_open(h, k) {
        return Err(Reason::NoOpenStep.at(0));
    }
    merge_equal(h, k, g, too_deep(host, k, donor), out)
}

// The same, with the index of the merged sheet's names.
fn graft_indexed(
    host: &SizedSheet,
    k: usize,
    donor: &SizedSheet,
    slots: &mut [u16; SLOT_COUNT],
    out: &mut [u8],
) -> Result<usize, Refusal>
    ensures fills { Fills (graft host.now donor.now k (length out.old))
        out.old out.new result }
    ensures slots_after { slots.new ≡ slots_after
        (graft host.now donor.now k (length out.old)) slots.old }
{
    let m = graft_accepted(host, k, donor, out)?;
    let merged = Memory {
        bytes: out,
        vocabulary: m.vocabulary(),
    };
    build(slots, &merged);
    Ok(m.layout().end)
}

// The donor's steps in place of step k of the host. The slots are the index of the merged sheet's names, or what they were where
// it is refused.
pub fn graft<'a>(
    host: &'a [u8],
    k: usize,
    donor: &'a [u8],
    slots: &mut [u16; SLOT_COUNT],
    out: &mut [u8],
) -> Result<usize, (Whose, Refusal)>
    ensures fills_by { FillsBy (graft_answer host.now donor.now k (length out.old))
        out.old out.new result }
    ensures slots_after { slots.new ≡ slots_by
        (graft_answer host.now donor.now k (length out.old)) slots.old }
    ensures merges { (n : ℕ) → result ≡ Ok n
        → Merges host.now donor.now k (take n out.new) }
{
    let mut host_sizes = [0u16; Sheet::STEP_LIMIT];
    let host_checked = SizedSheet::new(host, &mut host_sizes);
    let h = host_checked.map_err(|refusal| (Whose::Host, refusal))?;
    let mut donor_sizes = [0u16; Sheet::STEP_LIMIT];
    let donor_checked = SizedSheet::new(donor, &mut donor_sizes);
    let g = donor_checked.map_err(|refusal| (Whose::Donor, refusal))?;
    let written = graft_indexed(&h, k, &g, slots, out);
    written.map_err(|refusal| (Whose::Neither, refusal))
}
