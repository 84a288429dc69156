//! How long a lease is waited for.

ghost use Rattle.std.specs.Prelude.{◌≡◌, ◌≤◌};
ghost use Rattle.hk_base.specs.declared.time.TheConstants.{MAX_TIME};
ghost use Rattle.hk_lease.specs.Wait.{wait, IsWait};

/// How long a manager waits on its own clock for a lease of this length, in milliseconds: a tenth longer, rounded up, since its
/// clock may go faster than the node's by that much. It may pass `MAX_TIME`.
pub fn wait(lease: u64) -> u64
    requires { lease ≤ MAX_TIME }
    ensures value { result ≡ wait lease }
    ensures tenth { IsWait lease result }
{
    lease + lease.div_ceil(10)
}
