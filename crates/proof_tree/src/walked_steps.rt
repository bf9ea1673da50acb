// The steps of a sheet with what the walk reads beside them.
ghost use Rattle.std.specs.Prelude.{ℕ, ◌<◌, get_or};
ghost use Rattle.proof_tree.specs.Exportable.{Exportable};

// The pairs and the code of the steps' propositions over so many names, the records of the steps, and the sizes of their trees. The
// steps are no `SizedSteps`: that has at most 1,024 of them, and the walk, which asks only that their numbers fit a u16, as the offsets
// of the code do, may not ask its callers for fewer.
#[derive(Clone, Copy)]
pub struct WalkedSteps<'a> {
    pub names: usize,
    pub pairs: &'a [u8],
    pub code: &'a [u8],
    pub records: &'a [u8],
    pub sizes: &'a [u16],
    pub count: usize,
    // A proof knows this of a parameter, and of a field where the struct says it.
    pub ghost bytes: { (i : ℕ) → get_or code.now i 0 < 256 },
    pub ghost exportable: { Exportable names pairs.now code.now records.now sizes.now count },
}
