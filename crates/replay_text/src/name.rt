// The calls' names, and the call that a line names. A line begins with a name, up to the first space.
ghost use Rattle.std.specs.Prelude.{◌≡◌};
ghost use Rattle.replay_text.specs.Names as Names;

// How many calls there are.
pub const CALLS: usize = 32;

// The calls, in the order of the report. Lines of those with Ld have a stride, which is no field of a case: `as`
// numbers only cases without fields, and a call's count (`Tally`) would need a list of places.
#[derive(Clone, Copy, Debug, PartialEq, Eq)]
pub enum Call {
    Abs,
    Abs1,
    Abs2,
    Recip,
    MulPow2,
    Fmax,
    Fmin,
    Sqrt,
    Hypot,
    NormL2,
    Rotg,
    Adjoint,
    Apply,
    MakeHouseholderInPlace,
    LahqrSchur22,
    Lasy2,
    SchurSwap,
    ReorderSchur,
    BlockValues,
    EvdFromRealSchur,
    Column,
    SchurSwapLd,
    ReorderSchurLd,
    BlockValuesLd,
    EvdFromRealSchurLd,
    ColumnLd,
    StandardisedValues,
    StandardisedValuesLd,
    ReorderSchurStopping,
    ReorderSchurStoppingLd,
    ReorderSchurList,
    ReorderSchurListLd,
}

impl Call {
    pub const ALL: [Call; CALLS] = [
        Call::Abs,
        Call::Abs1,
        Call::Abs2,
        Call::Recip,
        Call::MulPow2,
        Call::Fmax,
        Call::Fmin,
        Call::Sqrt,
        Call::Hypot,
        Call::NormL2,
        Call::Rotg,
        Call::Adjoint,
        Call::Apply,
        Call::MakeHouseholderInPlace,
        Call::LahqrSchur22,
        Call::Lasy2,
        Call::SchurSwap,
        Call::ReorderSchur,
        Call::BlockValues,
        Call::EvdFromRealSchur,
        Call::Column,
        Call::SchurSwapLd,
        Call::ReorderSchurLd,
        Call::BlockValuesLd,
        Call::EvdFromRealSchurLd,
        Call::ColumnLd,
        Call::StandardisedValues,
        Call::StandardisedValuesLd,
        Call::ReorderSchurStopping,
        Call::ReorderSchurStoppingLd,
        Call::ReorderSchurList,
        Call::ReorderSchurListLd,
    ];

    // Its name, with the spaces after it that a row of the report has. Printed by `{:<28}` they would be proved of
    // no row, where `title` of `replay` promises them.
    pub fn name(self) -> &'static [u8; 28]
        ensures { result.now ≡ Names.name_of self }
    {
        match self {
            Call::Abs => b"abs                         ",
            Call::Abs1 => b"abs1                        ",
            Call::Abs2 => b"abs2                        ",
            Call::Recip => b"recip                       ",
            Call::MulPow2 => b"mul_pow2                    ",
            Call::Fmax => b"fmax                        ",
            Call::Fmin => b"fmin                        ",
            Call::Sqrt => b"sqrt                        ",
            Call::Hypot => b"hypot                       ",
            Call::NormL2 => b"norm_l2                     ",
            Call::Rotg => b"rotg                        ",
            Call::Adjoint => b"adjoint                     ",
            Call::Apply => b"apply                       ",
            Call::MakeHouseholderInPlace => b"make_householder_in_place   ",
            Call::LahqrSchur22 => b"lahqr_schur22               ",
            Call::Lasy2 => b"lasy2                       ",
            Call::SchurSwap => b"schur_swap                  ",
            Call::ReorderSchur => b"reorder_schur               ",
            Call::BlockValues => b"block_values                ",
            Call::EvdFromRealSchur => b"evd_from_real_schur         ",
            Call::Column => b"column                      ",
            Call::SchurSwapLd => b"schur_swap_ld               ",
            Call::ReorderSchurLd => b"reorder_schur_ld            ",
            Call::BlockValuesLd => b"block_values_ld             ",
            Call::EvdFromRealSchurLd => b"evd_from_real_schur_ld      ",
            Call::ColumnLd => b"column_ld                   ",
            Call::StandardisedValues => b"standardised_values         ",
            Call::StandardisedValuesLd => b"standardised_values_ld      ",
            Call::ReorderSchurStopping => b"reorder_schur_stopping      ",
            Call::ReorderSchurStoppingLd => b"reorder_schur_stopping_ld   ",
            Call::ReorderSchurList => b"reorder_schur_list          ",
            Call::ReorderSchurListLd => b"reorder_schur_list_ld       ",
        }
    }
}

// How many bytes stand before the first space.
pub fn name_end(line: &[u8]) -> usize
    ensures { result ≡ Names.name_end line.now }
{
    line.iter().position(|b| *b == b' ').unwrap_or(line.len())
}

// A name with spaces after it; too many bytes are no name.
#[tactic(auto, unfolding(crate::specs::Names::padded))]
fn padded(name: &[u8]) -> Option<[u8; 28]>
    ensures { result ≡ Names.padded name.now }
{
    if name.len() > 28 {
        return None;
    }
    let mut out = [b' '; 28];
    out[..name.len()].copy_from_slice(name);
    Some(out)
}

// The call of the name that a line begins with. A `TryFrom<&[u8]>` would need a type of error, which the one caller
// would turn back into None.
#[tactic(auto, unfolding(crate::specs::Names::call_named, crate::specs::Names::call_of))]
pub fn call_named(name: &[u8]) -> Option<Call>
    ensures { result ≡ Names.call_named name.now }
{
    let whole = padded(name)?;
    Call::ALL.iter().find(|call| whole == *call.name()).copied()
}
