//! What a storm is asked for.

ghost use Rattle.std.specs.Prelude.{◌≡◌, ◌↔◌, IsTrue};
ghost use Rattle.hk_storm.specs.Storm.{IsStorm};

/// How large a storm is: `nodes` from 1 to 8, `workers` of each from 1 to 8, `calls` from 1 to 20,000 in all, which are drawn from `start`.
#[derive(Clone, Copy, Debug, PartialEq, Eq)]
pub struct StormOpts {
    pub start: u64,
    pub nodes: u8,
    pub workers: u8,
    pub calls: u32,
}

/// Whether a storm may be so large.
pub fn is_storm(opts: &StormOpts) -> bool
    ensures { IsTrue result ↔ IsStorm opts.now }
{
    (1..=8).contains(&opts.nodes)
        && (1..=8).contains(&opts.workers)
        && (1..=20_000).contains(&opts.calls)
}
