//! Where the literals of level 0 stand.

ghost use Rattle.std.specs.Prelude.{◌≡◌, IsTrue};
ghost use Rattle.cnf_base.specs.Status.{has};
ghost use Rattle.sat_trail.specs.Trail.{Assignment, lits};
ghost use Rattle.sat_learn.specs.Resolving.{StandsAt};

use crate::implication::place_of;
use cnf_base::CnfLit;
use ketch_base::OutOfMemory;
use sat_trail::Trail;
use std::alloc::Global;

/// For each variable a place, and how many places were noted. A place is looked at before it is taken, so nothing rests on
/// its being right: where it isn't, the trail is searched.
#[derive(Debug, Drop)]
pub struct RootPlaces {
    places: Vec<u32>,
    noted: u32,
}

impl RootPlaces {
    pub fn new(alloc: Global, vars: u32) -> Result<RootPlaces, OutOfMemory> {
        let places = vec![in alloc; 0; vars as usize + 1]?;
        Ok(RootPlaces { places, noted: 0 })
    }

    /// Notes the places of level 0 past those that were noted: it only grows.
    pub fn note(&mut self, trail: &Trail) {
        let end = trail.len_upto(0);
        for place in self.noted..end {
            let index = trail.at(place).var() as usize;
            if index < self.places.len() {
                self.places[index] = place;
            }
        }
        self.noted = self.noted.max(end);
    }

    /// The place of a literal that is true.
    pub fn find(&self, trail: &Trail, lit: CnfLit) -> u32
        requires { IsTrue (has (lits trail.now.assignments) lit) }
        ensures { (p : Assignment) × StandsAt trail.now.assignments result p × (p.lit ≡ lit) }
    {
        if let Some(place) = self.places.get(lit.var() as usize) {
            let place = *place;
            if place < trail.len() && trail.at(place) == lit {
                return place;
            }
        }
        place_of(trail, lit)
    }
}
