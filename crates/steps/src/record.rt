// The record of a step: its numbers, what they stand for, and refusal 9.
ghost use Rattle.std.specs.Prelude.{ℕ, ◌+◌, ◌<◌, ◌≡◌, ◌||◌};
ghost use Rattle.definitions.specs.Sheet.{step_size, rule_byte, premiss_count, step_number, column};
ghost use Rattle.definitions.specs.Admission.{no_name, not_zero, bad_identifier, bad_prop_is_true, bad_type_judgement, bad_conclusion, bad_column, bad_step};
ghost use Rattle.steps.specs.Records.{HasStep};
ghost use Rattle.steps.specs.Fields.{offset_of, identifier_in};
ghost use Rattle.steps.specs.StepAt.{conclusion_at, numbers_of, step_at};
ghost use Rattle.steps.specs.Rules.{bad_identifiers};

use crate::rule::Rule;
use crate::{COLUMN_LIMIT, Conclusion, Judgement, STEP_SIZE, Step};
use definitions::Identifier;
use number::number_at;

// The fields of a record, after the bytes of the rule and of the premiss count, by where they stand: two identifiers, then the
// conclusion's kind and its three numbers, then the column.
#[derive(Clone, Copy)]
enum Field {
    FirstName = 2,
    FirstId = 4,
    SecondName = 6,
    SecondId = 8,
    Kind = 10,
    Number = 12,
    UniqueId = 14,
    Datatype = 16,
    Column = 18,
}

impl Field {
    // Its offset.
    #[tactic(auto, unfolding(definitions::specs::Sheet::step_size, crate::specs::Fields::offset_of))]
    fn offset(self) -> usize
        ensures { (result ≡ offset_of self) × (result + 1 < step_size) }
    {
        self as usize
    }
}

// The numbers by which a record says what its conclusion is. `Conclusion` is their enum: one of kinds alone would have its variants again.
const PROP_IS_TRUE: usize = 0;

const TYPE_JUDGEMENT: usize = 1;

impl Conclusion {
    // The numbers that a record has for it: its kind, and then a proposition and two zeros, or an object with its id and its datatype.
    #[tactic(auto, unfolding(crate::specs::StepAt::numbers_of))]
    pub fn numbers(self) -> [u16; 4]
        ensures { result ≡ numbers_of self }
    {
        match self {
            Conclusion::PropIsTrue(p) => [PROP_IS_TRUE as u16, p, 0, 0],
            Conclusion::TypeJudgement(Judgement { object, datatype }) => {
                let Identifier { name, unique_id } = object;
                [TYPE_JUDGEMENT as u16, name, unique_id, datatype]
            }
        }
    }
}

// Step k of records that have it.
#[derive(Clone, Copy)]
pub struct StepRecord<'a> {
    pub step_records: &'a [u8],
    pub k: usize,
    pub ghost there: { HasStep step_records.now k },
}

impl StepRecord<'_> {
    // The number of a field.
    #[tactic(auto, unfolding(definitions::specs::Sheet::step_size, definitions::specs::Sheet::step_number))]
    fn number(&self, field: Field) -> usize
        ensures { (result ≡ step_number self.now.step_records.now self.now.k (offset_of field)) × (result < 65536) }
    {
        number_at(self.step_records, STEP_SIZE * self.k + field.offset())
    }

    #[tactic(auto, unfolding(definitions::specs::Sheet::step_size, definitions::specs::Sheet::rule_byte))]
    pub fn rule_byte(&self) -> u8
        ensures { result ≡ rule_byte self.now.step_records.now self.now.k }
    {
        self.step_records[STEP_SIZE * self.k]
    }

    #[tactic(auto, unfolding(definitions::specs::Sheet::step_size, definitions::specs::Sheet::premiss_count))]
    pub fn premiss_count(&self) -> u8
        ensures { result ≡ premiss_count self.now.step_records.now self.now.k }
    {
        self.step_records[STEP_SIZE * self.k + 1]
    }

    // The identifier of a name and an id.
    fn identifier(&self, name: Field, id: Field) -> Identifier
        ensures { result ≡ identifier_in self.now.step_records.now self.now.k (offset_of name) (offset_of id) }
    {
        Identifier {
            name: self.number(name) as u16,
            unique_id: self.number(id) as u16,
        }
    }

    // The conclusion: its kind says what the numbers after it are.
    #[tactic(auto, unfolding(crate::specs::Fields::offset_of, crate::specs::StepAt::identifier_at, crate::specs::StepAt::conclusion_at))]
    fn conclusion(&self) -> Conclusion
        ensures { result ≡ conclusion_at self.now.step_records.now self.now.k }
    {
        if self.number(Field::Kind) == PROP_IS_TRUE {
            return Conclusion::PropIsTrue(self.number(Field::Number) as u16);
        }
        Conclusion::TypeJudgement(Judgement {
            object: self.identifier(Field::Number, Field::UniqueId),
            datatype: self.number(Field::Datatype) as u16,
        })
    }

    // The column that the step was drawn in.
    #[tactic(auto, unfolding(crate::specs::Fields::offset_of, definitions::specs::Sheet::column))]
    fn column(&self) -> u16
        ensures { result ≡ column self.now.step_records.now self.now.k }
    {
        self.number(Field::Column) as u16
    }

    // The step as a value.
    #[tactic(auto, unfolding(crate::specs::Fields::offset_of, crate::specs::Fields::identifier_in, crate::specs::StepAt::identifier_at, crate::specs::StepAt::step_at))]
    pub fn step(&self) -> Step
        ensures { result ≡ step_at self.now.step_records.now self.now.k }
    {
        Step {
            rule: self.rule_byte(),
            premiss_count: self.premiss_count(),
            first: self.identifier(Field::FirstName, Field::FirstId),
            second: self.identifier(Field::SecondName, Field::SecondId),
            conclusion: self.conclusion(),
            column: self.column(),
        }
    }

    // The number of a field is that of no name.
    #[tactic(auto, unfolding(definitions::specs::Admission::no_name))]
    fn no_name(&self, field: Field, names: usize) -> bool
        ensures { (propositions : ℕ) → result ≡ no_name names propositions self.now.step_records.now self.now.k (offset_of field) }
    {
        names <= self.number(field)
    }

    // The number of a field is not 0.
    #[tactic(auto, unfolding(definitions::specs::Admission::not_zero))]
    fn not_zero(&self, field: Field) -> bool
        ensures { (names propositions : ℕ) → result ≡ not_zero names propositions self.now.step_records.now self.now.k (offset_of field) }
    {
        self.number(field) != 0
    }

    // The name or the id of an identifier is used.
    fn uses_identifier(&self, name: Field, id: Field) -> bool
        ensures { (names propositions : ℕ) →
            result ≡ (not_zero names propositions self.now.step_records.now self.now.k (offset_of name)
            || not_zero names propositions self.now.step_records.now self.now.k (offset_of id)) }
    {
        self.not_zero(name) || self.not_zero(id)
    }

    // An identifier has no name where the rule has it, or is used where the rule lacks it.
    #[tactic(auto, unfolding(crate::specs::Fields::offset_of, definitions::specs::Admission::bad_identifier))]
    fn bad_identifiers(&self, rule: Rule, names: usize) -> bool
        ensures { (propositions : ℕ) → result ≡ bad_identifiers names propositions self.now.step_records.now self.now.k rule }
    {
        match rule.identifier_count() {
            0 => self.uses_identifier(Field::FirstName, Field::FirstId)
                || self.uses_identifier(Field::SecondName, Field::SecondId),
            1 => self.no_name(Field::FirstName, names)
                || self.uses_identifier(Field::SecondName, Field::SecondId),
            _ => self.no_name(Field::FirstName, names) || self.no_name(Field::SecondName, names),
        }
    }

    // A conclusion of kind 0: a proposition number, 0, 0.
    #[tactic(auto, unfolding(crate::specs::Fields::offset_of, definitions::specs::Admission::bad_prop_is_true))]
    fn bad_prop_is_true(&self, propositions: usize) -> bool
        ensures { (names : ℕ) → result ≡ bad_prop_is_true names propositions self.now.step_records.now self.now.k }
    {
        propositions <= self.number(Field::Number)
            || (self.not_zero(Field::UniqueId) || self.not_zero(Field::Datatype))
    }

    // A conclusion of kind 1: a name, an id, a datatype name.
    #[tactic(auto, unfolding(crate::specs::Fields::offset_of, definitions::specs::Admission::bad_type_judgement))]
    fn bad_type_judgement(&self, names: usize) -> bool
        ensures { (propositions : ℕ) → result ≡ bad_type_judgement names propositions self.now.step_records.now self.now.k }
    {
        self.no_name(Field::Number, names) || self.no_name(Field::Datatype, names)
    }

    #[tactic(auto, unfolding(crate::specs::Fields::offset_of, definitions::specs::Admission::bad_conclusion))]
    fn bad_conclusion(&self, names: usize, propositions: usize) -> bool
        ensures { result ≡ bad_conclusion names propositions self.now.step_records.now self.now.k }
    {
        match self.number(Field::Kind) {
            PROP_IS_TRUE => self.bad_prop_is_true(propositions),
            TYPE_JUDGEMENT => self.bad_type_judgement(names),
            _ => true,
        }
    }

    // The column is out of range.
    #[tactic(auto, unfolding(definitions::specs::Sheet::column_limit, definitions::specs::Admission::bad_column))]
    fn bad_column(&self) -> bool
        ensures { (names propositions : ℕ) → result ≡ bad_column names propositions self.now.step_records.now self.now.k }
    {
        COLUMN_LIMIT < self.column()
    }

    // The rule, the kind, a name, a proposition number or the column is out of range, or an unused field is not 0.
    #[tactic(auto, unfolding(definitions::specs::Sheet::step_size, definitions::specs::Tree::rule_in, definitions::specs::Admission::identifiers, definitions::specs::Admission::bad_step))]
    pub fn is_bad(&self, names: usize, propositions: usize) -> bool
        ensures { result ≡ bad_step names propositions self.now.step_records.now self.now.k }
    {
        let Some(rule) = Rule::of_byte(self.rule_byte()) else {
            return true;
        };
        self.bad_identifiers(rule, names)
            || (self.bad_conclusion(names, propositions) || self.bad_column())
    }
}
