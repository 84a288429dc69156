//! The outlets from an actor.

ghost use Rattle.std.specs.Prelude.{◌≡◌, None, IfOk};
ghost use Rattle.std.specs.Arc.{arc_value};

use crate::outlets::{keep_others, put, split_each};
use hk_base::{Actor, Memory};
use hk_link::Outlet;
use hk_overseer::Outlets;
use std::alloc::Global;
use std::sync::atomic::{AtomicU64, Ordering};
use std::sync::{Arc, Mutex, Wait};

/// The outlets from an actor as they are now, one to each actor to whom it may send.
#[derive(Drop)]
pub struct Routes {
    // How often they changed.
    changes: AtomicU64,
    outlets: Mutex<Vec<(Actor, Outlet)>>,
}

impl Routes {
    /// These are the first ones.
    pub fn new(outlets: Outlets) -> Routes {
        Routes {
            changes: AtomicU64::new(0),
            outlets: Mutex::new(outlets.into_vec()),
        }
    }

    // How often they changed.
    fn changes(&self) -> u64 {
        self.changes.load(Ordering::SeqCst)
    }

    fn push<R: Wait>(&self, rt: &R, to: Actor, outlet: Outlet) -> Result<(), Memory> {
        let mut guard = self.outlets.lock(rt);
        put(&mut *guard, to, outlet)
    }

    /// One more, to this actor, to whom none leads yet. After `Memory` nothing has changed.
    pub fn add<R: Wait>(&self, rt: &R, to: Actor, outlet: Outlet) -> Result<(), Memory> {
        self.push(rt, to, outlet)?;
        self.changes.fetch_add(1, Ordering::SeqCst);
        Ok(())
    }

    fn retain_others<R: Wait>(&self, rt: &R, to: Actor) {
        let mut guard = self.outlets.lock(rt);
        keep_others(&mut *guard, to);
    }

    /// None leads to this actor any more.
    pub fn remove<R: Wait>(&self, rt: &R, to: Actor) {
        self.retain_others(rt, to);
        self.changes.fetch_add(1, Ordering::SeqCst);
    }

    /// One outlet more to each actor.
    pub fn split<R: Wait>(&self, rt: &R, alloc: Global) -> Result<Outlets, Memory> {
        let mut guard = self.outlets.lock(rt);
        split_each(alloc, &mut *guard)
    }
}

/// Follows routes as they change.
#[derive(Drop)]
pub struct Follower {
    routes: Arc<Routes>,
    // At how many changes it was told the outlets last.
    seen: u64,
}

impl Follower {
    /// Nothing was told yet. The routes before their first change are known.
    pub fn new(routes: Arc<Routes>) -> Follower
        ensures { result.routes ≡ routes }
    {
        Follower { routes, seen: 0 }
    }

    /// One that has been told them at this moment, and the outlets.
    pub fn begin<R: Wait>(
        rt: &R,
        alloc: Global,
        routes: &Arc<Routes>,
    ) -> Result<(Follower, Outlets), Memory>
        ensures { IfOk result (λ made. arc_value made.0.routes ≡ arc_value routes.now) }
    {
        let seen = routes.changes();
        let outlets = routes.split(rt, alloc)?;
        let routes = Arc::try_clone(routes)?;
        Ok((Follower { routes, seen }, outlets))
    }

    /// The outlets, if they changed since they were told last. Where memory is wanting they are told later.
    pub fn renewed<R: Wait>(&mut self, rt: &R, alloc: Global) -> Option<Outlets>
        ensures routes { self.new.routes ≡ self.old.routes }
        ensures same { result ≡ None → self.new ≡ self.old }
    {
        let changes = self.routes.changes();
        if changes == self.seen {
            return None;
        }
        let outlets = self.routes.split(rt, alloc).ok()?;
        self.seen = changes;
        Some(outlets)
    }

    /// Whoever was told the outlets could not take them: they are told anew.
    pub fn tell_again(&mut self)
        ensures { self.new.routes ≡ self.old.routes }
    {
        self.seen = u64::MAX;
    }
}
