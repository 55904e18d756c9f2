// Flags of branches.
ghost use Rattle.std.specs.Prelude.{◌≡◌};
ghost use Rattle.graph.specs.Rows.{flag};

// Whether branch k is flagged; beyond the flags none is.
pub fn flagged(flags: &[bool], k: u16) -> bool
    ensures { result ≡ flag flags.now k }
{
    flags.get(usize::from(k)).copied().unwrap_or(false)
}
