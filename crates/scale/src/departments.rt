// The scale of departments: a level is a set of departments, and a larger set is a higher level.
ghost use Rattle.std.specs.Prelude.{◌≤◌};

mod sets;

#[derive(Clone, Copy)]
pub struct Departments {
    count: u32,
    ghost fits: { count ≤ 8 },
}
