// Every refusal there is. Each layer has an enum of faults that says in its own words why it refuses, the maker's
// here and the others in a module each; and each fault is a number, the layer that refuses and a place.
#![tactic(auto)]

pub mod check;
pub mod engine;
pub mod reader;

ghost use Rattle.refusal.specs.Makers.{maker_refusal};
ghost use Rattle.refusal.specs.Layers.{layer_name};
ghost use Rattle.std.specs.Prelude.{◌≡◌, Some};

use std::fmt;

// The part of the system that refuses.
#[derive(Clone, Copy, PartialEq, Eq, Debug)]
pub enum Layer {
    Reader,
    Check,
    Engine,
    Maker,
}

impl Layer {
    // The word for this layer.
    pub fn name(self) -> &'static str
        ensures { result.now ≡ layer_name self }
    {
        match self {
            Layer::Reader => "reader",
            Layer::Check => "check",
            Layer::Engine => "engine",
            Layer::Maker => "maker",
        }
    }
}

impl fmt::Display for Layer {
    ghost output = { λ layer. Some (layer_name layer) };

    fn fmt<W: fmt::Write>(&self, f: &mut fmt::Formatter<W>) -> fmt::Result {
        f.write_str(self.name())
    }
}

// A refusal as a caller sees it. Callers, printed lines and C know it by its number, so that is a number here.
#[derive(Clone, Copy, PartialEq, Eq, Debug)]
pub struct Refusal {
    pub number: u8,
    pub layer: Layer,
    pub place: u32,
}

// A value that cannot be made: what was asked for lies outside its limits.
#[derive(Clone, Copy, PartialEq, Eq, Debug)]
pub enum MakerFault {
    Ranks,
    Departments,
    Charge,
    LineBuffer,
}

impl From<MakerFault> for Refusal {
    ghost from_gives = { λ fault refusal. refusal ≡ maker_refusal fault };

    fn from(_fault: MakerFault) -> Refusal {
        Refusal {
            number: 20,
            layer: Layer::Maker,
            place: 0,
        }
    }
}
