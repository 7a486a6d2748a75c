// The branches of a statement, each of which begins where the statement does.

ghost use Rattle.std.specs.Prelude.{◌≡◌, ◌<◌, ◌++◌, ◌∷◌, [], ℕ, ◌≤◌, ◌↔◌, drop, length, IfOk, OnOk};
ghost use Rattle.std.specs.List.Sorted.{IsStrictlyIncreasing};
ghost use Rattle.vlog_tree_runs.specs.Places.{Among};
ghost use Rattle.elab_step_flow.specs.declared.branches.Spot.{Spot as At};
ghost use Rattle.elab_step_flow.specs.Branches.{AreInside, IsSpotOf, SpotsAdded, PutTo, BlankTo, AddTo, EndTo};
ghost use Rattle.elab_step_flow.specs.Sets.{tables, IsSized};

use crate::flow::BlockFlow;
use crate::sets::{add_places, both};
use std::alloc::{AllocError, Global};

/// What paths do at the place of a signal.
#[derive(Drop)]
pub struct Spot {
    pub place: usize,
    /// A 1 for each bit that some path leaves unset.
    pub word: u64,
    /// The places of those that an assignment to it depends on.
    pub row: Vec<usize>,
}

/// What some branches do.
#[derive(Drop)]
pub struct Branches {
    /// What each of them leaves at the places that it assigns.
    pub spots: Vec<Spot>,
    /// The places that all of them assign; none if a path leads past them.
    pub common: Vec<usize>,
    /// The places that they read before all of the signal is set.
    pub outside: Vec<usize>,
}

fn spot_at(flow: &BlockFlow, alloc: Global, place: usize) -> Result<Spot, AllocError>
    requires sized { IsSized (length flow.now.unset.items) flow.now }
    requires within { place < length flow.now.unset.items }
    ensures place { IfOk result (λ x. x.place ≡ place) }
    ensures spot { IfOk result (λ x. IsSpotOf (tables flow.now) x) }
{
    let row = flow.through[place].as_slice().to_vec(alloc)?;
    Ok(Spot {
        place,
        word: flow.unset[place],
        row,
    })
}

fn add_spots(
    all: &mut Vec<Spot>,
    alloc: Global,
    flow: &BlockFlow,
    places: &[usize],
) -> Result<(), AllocError>
    requires sized { IsSized (length flow.now.unset.items) flow.now }
    requires within { (i : ℕ) → Among places.now i → i < length flow.now.unset.items }
    ensures { OnOk result (SpotsAdded places.now (tables flow.now) all.old.items all.new.items) }
{
    for place in places {
        all.push(spot_at(flow, alloc, *place)?)?;
    }
    Ok(())
}

/// What paths do at some places.
pub fn spots_at(alloc: Global, flow: &BlockFlow, places: &[usize]) -> Result<Vec<Spot>, AllocError>
    requires sized { IsSized (length flow.now.unset.items) flow.now }
    requires within { (i : ℕ) → Among places.now i → i < length flow.now.unset.items }
    ensures { IfOk result (λ r. SpotsAdded places.now (tables flow.now) [] r.items) }
{
    let mut all = Vec::new(alloc);
    add_spots(&mut all, alloc, flow, places)?;
    Ok(all)
}

impl Branches {
    /// No branch yet, and the places that all will assign are among some.
    pub fn of(alloc: Global, places: Vec<usize>) -> Branches
        ensures spots { result.spots.items ≡ [] }
        ensures common { result.common ≡ places }
        ensures outside { result.outside.items ≡ [] }
    {
        Branches {
            spots: Vec::new(alloc),
            common: places,
            outside: Vec::new(alloc),
        }
    }

    /// Adds what a branch does that assigns some places, and before which so many reads were found.
    pub fn add(
        &mut self,
        alloc: Global,
        flow: &BlockFlow,
        places: &[usize],
        reads: usize,
    ) -> Result<(), AllocError>
        requires rises { IsStrictlyIncreasing places.now }
        requires sized { IsSized (length flow.now.unset.items) flow.now }
        requires within { (i : ℕ) → Among places.now i → i < length flow.now.unset.items }
        requires reads { reads ≤ length flow.now.outside.items }
        ensures spots { OnOk result (SpotsAdded places.now
            (tables flow.now) self.old.spots.items self.new.spots.items) }
        ensures common { OnOk result ((i : ℕ) → Among self.new.common.items i ↔
            (Among self.old.common.items i × Among places.now i)) }
        ensures outside { OnOk result (self.new.outside.items ≡ self.old.outside.items ++ drop reads flow.now.outside.items) }
    {
        add_spots(&mut self.spots, alloc, flow, places)?;
        self.common = both(alloc, &self.common, places)?;
        self.outside.extend_from_slice(&flow.outside[reads..])?;
        Ok(())
    }
}

impl BlockFlow {
    fn put(&mut self, alloc: Global, spot: &Spot) -> Result<(), AllocError>
        requires sized { IsSized (length self.old.unset.items) self.old }
        requires within { spot.now.place < length self.old.unset.items }
        ensures put { OnOk result (PutTo (spot.now ∷ []) (tables self.old) (tables self.new)) }
        ensures outside { self.new.outside ≡ self.old.outside }
        ensures sized { IsSized (length self.old.unset.items) self.new }
    {
        let row = spot.row.as_slice().to_vec(alloc)?;
        self.unset[spot.place] = spot.word;
        self.through[spot.place] = row;
        Ok(())
    }

    /// Puts back what was at some places.
    pub fn put_back(&mut self, alloc: Global, spots: &[Spot]) -> Result<(), AllocError>
        requires sized { IsSized (length self.old.unset.items) self.old }
        requires within { (x : At) → Among spots.now x → x.place < length self.old.unset.items }
        ensures put { OnOk result (PutTo spots.now (tables self.old) (tables self.new)) }
        ensures outside { self.new.outside ≡ self.old.outside }
        ensures sized { IsSized (length self.old.unset.items) self.new }
    {
        for spot in spots {
            self.put(alloc, spot)?;
        }
        Ok(())
    }

    // Clears what paths do at some places.
    fn blank(&mut self, alloc: Global, places: &[usize])
        requires sized { IsSized (length self.old.unset.items) self.old }
        requires within { (i : ℕ) → Among places.now i → i < length self.old.unset.items }
        ensures blank { BlankTo places.now (tables self.old) (tables self.new) }
        ensures outside { self.new.outside ≡ self.old.outside }
        ensures sized { IsSized (length self.old.unset.items) self.new }
    {
        for place in places {
            self.unset[*place] = 0;
            self.through[*place] = Vec::new(alloc);
        }
    }

    fn add_spot(&mut self, spot: &Spot) -> Result<(), AllocError>
        requires sized { IsSized (length self.old.unset.items) self.old }
        requires within { spot.now.place < length self.old.unset.items }
        ensures added { OnOk result (AddTo (spot.now ∷ []) (tables self.old) (tables self.new)) }
        ensures outside { self.new.outside ≡ self.old.outside }
        ensures sized { IsSized (length self.old.unset.items) self.new }
    {
        self.unset[spot.place] = self.unset[spot.place] | spot.word;
        add_places(&mut self.through[spot.place], &spot.row)?;
        Ok(())
    }

    // Adds what paths do at some places.
    fn add_all(&mut self, spots: &[Spot]) -> Result<(), AllocError>
        requires sized { IsSized (length self.old.unset.items) self.old }
        requires within { (x : At) → Among spots.now x → x.place < length self.old.unset.items }
        ensures added { OnOk result (AddTo spots.now (tables self.old) (tables self.new)) }
        ensures outside { self.new.outside ≡ self.old.outside }
        ensures sized { IsSized (length self.old.unset.items) self.new }
    {
        for spot in spots {
            self.add_spot(spot)?;
        }
        Ok(())
    }

    /// Where branches end that began here.
    pub fn join(&mut self, alloc: Global, branches: &Branches) -> Result<(), AllocError>
        requires sized { IsSized (length self.old.unset.items) self.old }
        requires within { AreInside (length self.old.unset.items) branches.now }
        ensures joined { OnOk result (EndTo branches.now (tables self.old) (tables self.new)) }
        ensures sized { IsSized (length self.old.unset.items) self.new }
    {
        self.blank(alloc, &branches.common);
        self.add_all(&branches.spots)?;
        self.outside.extend_from_slice(&branches.outside)?;
        Ok(())
    }
}
