//! The tasks of a bucket in one list, each available or leased.

ghost use Rattle.std.specs.Prelude.{◌≡◌, ◌<◌, ◌≤◌, ◌+◌, ◌==◌, if◌then◌else◌, length, map, nat_le, option_copied, IfOk, OnOk, OnErr, IsSome, Some};
ghost use Rattle.std.specs.Option.{option_map};
ghost use Rattle.task_bucket.specs.inner.Held.{held_is, until_of, AreRising, free_count, place_for, place_at, lesser_count, slot_at, picked_place, later_place, woken, asleep, leased, retimed_held, first_held, lease_in, leases_in, lists_in, least_of};
ghost use Rattle.task_bucket.specs.Lists.{is_leased, least_until};
ghost use Rattle.task_bucket.specs.Claims.{lease_of, with_chosen};

use crate::Lease;
use std::alloc::AllocError;
use task_kinds::Task;

/// A task that is available, or leased until a version. One that was woken keeps the version that
/// it was leased until.
#[derive(Debug, Drop)]
pub struct Held {
    pub uid: u64,
    pub until: u64,
    pub free: bool,
    pub task: Task,
}

impl Held {
    /// Whether it is the lease of this uid until this version.
    pub fn is_lease(&self, until: u64, uid: u64) -> bool
        ensures { result ≡ held_is until uid self.now }
    {
        !self.free && self.until == until && self.uid == uid
    }

    pub fn is_of(&self, job: u64) -> bool
        ensures { result ≡ (self.now.task.job == job) }
    {
        self.task.job() == job
    }

    /// What it counts among those that are available.
    pub fn free_count(&self) -> usize
        ensures { result ≡ (if self.now.free then 1 else 0) }
    {
        usize::from(self.free)
    }

    fn until(&self) -> Option<u64>
        ensures { result ≡ until_of self.now }
    {
        if self.free { None } else { Some(self.until) }
    }

    // Makes it available exactly where it is due, and tells whether it is.
    fn wake(&mut self, now: u64) -> bool
        ensures woken { self.new ≡ woken now self.old }
        ensures due { result ≡ nat_le self.old.until now }
    {
        self.free = self.until <= now;
        self.free
    }

    fn lease_again(&mut self)
        ensures { self.new ≡ asleep self.old }
    {
        self.free = false;
    }

    fn lease_out(&mut self, until: u64) -> Result<Lease, AllocError>
        ensures lease { IfOk result (λ lease. lease ≡ lease_in until self.old) }
        ensures ok { OnOk result (self.new ≡ leased until self.old) }
        ensures err { OnErr result (self.new ≡ self.old) }
    {
        let task = self.task.copy()?;
        self.until = until;
        self.free = false;
        Ok(Lease {
            until,
            uid: self.uid,
            task,
        })
    }

    fn retime_if(&mut self, until: u64, uid: u64, new: u64)
        ensures { self.new ≡ retimed_held until uid new self.old }
    {
        if self.is_lease(until, uid) {
            self.until = new;
        }
    }
}

/// The place of the first with a greater uid. It halves.
pub fn place_for(held: &[Held], uid: u64) -> usize
    requires { AreRising held.now }
    ensures place { result ≡ place_for uid held.now }
    ensures within { result ≤ length held.now }
{
    held.partition_point(|one| one.uid <= uid)
}

/// How many have lesser uids: where the task with this uid stands, or would stand. It halves.
pub fn place_of(held: &[Held], uid: u64) -> usize
    requires { AreRising held.now }
    ensures { result ≡ lesser_count uid held.now }
{
    held.partition_point(|one| one.uid < uid)
}

// Down from a place to the first, and then up from it to the last.
fn place_at(place: usize, step: usize, count: usize) -> usize
    requires place { place ≤ count }
    requires step { step < count }
    ensures at { result ≡ place_at place step }
    ensures within { result < count }
{
    if step < place { place - 1 - step } else { step }
}

/// The place of the available task that a claim picks. It looks at the uids nearest to the pick
/// first.
pub fn picked(held: &[Held], pick: u64) -> Option<usize>
    requires { AreRising held.now }
    ensures { result ≡ picked_place pick held.now }
{
    let place = place_for(held, pick);
    let count = held.len();
    for step in 0..count {
        let at = place_at(place, step, count);
        if held[at].free {
            return Some(at);
        }
    }
    None
}

/// What a pass has woken: how many, and the place of the one to claim.
#[derive(Clone, Copy, Debug)]
pub struct Woken {
    pub count: usize,
    pub place: Option<usize>,
}

// The later place where its uid is low, else the one so far.
fn later_place(low: bool, later: usize, place: Option<usize>) -> usize
    ensures { result ≡ later_place low later place }
{
    match place {
        Some(place) if !low => place,
        _ => later,
    }
}

/// Makes exactly those available that are due, in one pass.
pub fn wake(held: &mut [Held], now: u64, pick: u64) -> Woken
    requires { AreRising held.old }
    ensures woken { held.new ≡ map (woken now) held.old }
    ensures count { result.count ≡ free_count held.new }
    ensures place { result.place ≡ picked_place pick held.new }
{
    let mut count = 0;
    let mut place = None;
    for (at, one) in held.iter_mut().enumerate() {
        if !one.wake(now) {
            continue;
        }
        count += 1;
        place = Some(later_place(one.uid <= pick, at, place));
    }
    Woken { count, place }
}

/// Leases all until the versions that they had.
pub fn lease_again(held: &mut [Held])
    ensures { held.new ≡ map asleep held.old }
{
    for one in held.iter_mut() {
        one.lease_again();
    }
}

/// Leases the available task at a place.
pub fn lease_out(held: &mut [Held], place: usize, until: u64) -> Result<Lease, AllocError>
    requires rising { AreRising held.old }
    requires free { IsSome (slot_at held.old place) }
    ensures rising { AreRising held.new }
    ensures lease { IfOk result
        (λ lease. option_map (lease_of until) (slot_at held.old place) ≡ Some lease) }
    ensures ok { OnOk result (lists_in held.new
        ≡ with_chosen until (slot_at held.old place) (lists_in held.old) (lists_in held.old)) }
    ensures count { OnOk result (free_count held.new + 1 ≡ free_count held.old) }
    ensures err { OnErr result (held.new ≡ held.old) }
{
    held[place].lease_out(until)
}

/// Gives the lease of this uid until this version another until.
pub fn retime(held: &mut [Held], until: u64, uid: u64, new: u64)
    requires { AreRising held.old }
    ensures { held.new ≡ map (retimed_held until uid new) held.old }
{
    let place = place_of(held, uid);
    if place < held.len() {
        held[place].retime_if(until, uid, new);
    }
}

/// The lease of this uid until this version.
pub fn find(held: &[Held], until: u64, uid: u64) -> Option<&Held>
    requires { AreRising held.now }
    ensures { option_copied result ≡ first_held until uid held.now }
{
    let place = place_of(held, uid);
    if place >= held.len() {
        return None;
    }
    let one = &held[place];
    if one.is_lease(until, uid) {
        Some(one)
    } else {
        None
    }
}

/// Whether there is a lease of this uid until this version.
pub fn is_leased(held: &[Held], until: u64, uid: u64) -> bool
    requires { AreRising held.now }
    ensures { result ≡ is_leased until uid (lists_in held.now) }
{
    find(held, until, uid).is_some()
}

/// The least version that one of these is leased until.
pub fn earliest(held: &[Held]) -> Option<u64>
    ensures { result ≡ least_until (leases_in held.now) }
{
    let mut least = None;
    for one in held {
        least = lesser(least, one.until());
    }
    least
}

fn lesser(least: Option<u64>, until: Option<u64>) -> Option<u64>
    ensures { result ≡ least_of least until }
{
    match (least, until) {
        (Some(n), Some(m)) => Some(n.min(m)),
        (Some(n), None) => Some(n),
        (None, until) => until,
    }
}
