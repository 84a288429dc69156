//! The laws of a status, over the definition of its text.

ghost use Rattle.hk_status.specs.Limits.{SmallStatusesFit};
ghost use Rattle.hk_status.specs.Worked.{EqualViewsShareALine};

/// The status of a group of at most 9 managers, 64 nodes and 64 newcomers, with addresses of at most 64 bytes, has at
/// most 65,000 bytes.
pub fn small_statuses_fit()
    ensures { SmallStatusesFit }
{}

/// Which shards share a line, worked out.
pub fn equal_views_share_a_line()
    ensures { EqualViewsShareALine }
{}
