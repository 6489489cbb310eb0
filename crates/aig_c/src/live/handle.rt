//! What C holds of a bench: a pointer to it, and whether there is one.
ghost use Rattle.std.specs.Prelude.{◌≡◌, ◌≢◌, Option, Some, None, true, false};
ghost use mathlib.Core.Bool.{Bool-set};
ghost use Rattle.aig_bench.specs.BenchState.{BenchState};
ghost use Rattle.aig_c.specs.state.Held.{held_owns, held_coded};
ghost use Rattle.aig_c.specs.Live.{Has, is_open};

use crate::live::parts::Parts;
use crate::live::status::NOT_OPEN;
use aig_bench::Bench;
use aig_sim::PlaneGrid;
use std::alloc::Global;
use std::marker::Model;

/// A place for a bench.
#[repr(C)]
#[derive(Drop)]
pub struct Seat {
    at: *mut u8,
    alloc: Global,
    pub ghost held: { Option BenchState } by { held_coded },
}

impl Model for Seat {
    ghost also_owns = { λ s. held_owns s.alloc s.at s.held };
}

impl Seat {
    fn empty(alloc: Global) -> Seat
        ensures { result.held ≡ None }
    {
        Seat {
            at: std::ptr::null_mut(),
            alloc,
        }
    }

    fn of(parts: Parts<Bench<PlaneGrid>, Global>) -> Seat
        ensures { result.held ≡ Some parts.value }
    {
        let Parts { ptr, alloc } = parts;
        Seat {
            at: ptr as *mut u8,
            alloc,
        }
    }

    fn into_parts(self) -> Parts<Bench<PlaneGrid>, Global>
        requires { is_open self.held ≡ true }
        ensures { self.held ≡ Some result.value }
    {
        let Seat { at, alloc } = self;
        Parts {
            ptr: at as *mut Bench<PlaneGrid>,
            alloc,
        }
    }
}

/// A bench that C holds, or none. Contracts see which, as `seat.held`.
#[repr(C)]
pub struct AigLive {
    pub seat: Seat,
    pub(crate) present: bool,
    ghost told: { present ≡ is_open seat.held } by { Bool-set _ _ },
}

// It closes: a place that is written over or forgotten leaks nothing.
impl Drop for AigLive {
    fn drop(self) {
        drop(self.into_box());
    }
}

impl AigLive {
    fn of(bench: Box<Bench<PlaneGrid>, Global>) -> AigLive
        ensures { result.seat.held ≡ Some bench.value }
    {
        AigLive {
            seat: Seat::of(Parts::of(bench)),
            present: true,
        }
    }

    fn into_box(self) -> Option<Box<Bench<PlaneGrid>, Global>>
        ensures { Has self.seat.held result }
    {
        let AigLive { seat, present } = self;
        if present {
            Some(seat.into_parts().into_box())
        } else {
            None
        }
    }

    /// The status of an edit that is refused whatever the bench is, where there is one.
    pub(crate) fn refusal(&self, status: u8) -> u8
        ensures closed { is_open self.now.seat.held ≡ false → result ≡ 255 }
        ensures held { is_open self.now.seat.held ≡ true → result ≡ status }
    {
        if self.present { status } else { NOT_OPEN }
    }

    /// Takes the bench out.
    pub(crate) fn take(&mut self, alloc: Global) -> Option<Box<Bench<PlaneGrid>, Global>>
        ensures held { Has self.old.seat.held result }
        ensures none { self.new.seat.held ≡ None }
    {
        let closed = AigLive {
            seat: Seat::empty(alloc),
            present: false,
        };
        std::mem::replace(self, closed).into_box()
    }

    /// Puts a bench where there is none.
    pub(crate) fn put(&mut self, bench: Box<Bench<PlaneGrid>, Global>)
        requires { self.old.seat.held ≡ None }
        ensures { self.new.seat.held ≡ Some bench.value }
    {
        *self = AigLive::of(bench);
    }
}
