// The making of department scales, and their answers. A code has one bit for each department.
ghost use Rattle.scale.specs.MadeSets.{DepartmentsMade, departments_of};

use super::Departments;
use crate::scale::Scale;
use refusal::MakerFault;

// The code of the set without departments.
const EMPTY: u16 = 0;

impl Departments {
    // A scale of up to 8 departments.
    pub fn new(count: u32) -> Result<Departments, MakerFault>
        ensures { DepartmentsMade count result }
    {
        if count > 8 {
            return Err(MakerFault::Departments);
        }
        Ok(Departments { count })
    }
}

impl Scale for Departments {
    ghost meaning = { departments_of };

    fn known(&self, code: u16) -> bool {
        code < 1u16 << self.count
    }

    fn at_or_below(&self, low: u16, high: u16) -> bool {
        self.known(low) && self.known(high) && low | high == high
    }

    fn join(&self, one: u16, other: u16) -> u16 {
        if self.known(one) && self.known(other) {
            one | other
        } else {
            EMPTY
        }
    }

    fn floor(&self) -> u16 {
        EMPTY
    }

    fn laws(&self) {}
}
