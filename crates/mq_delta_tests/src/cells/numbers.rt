//! Numbers by a fixed rule, and small models, inputs and changes made of them.
ghost use Rattle.std.specs.Prelude.{◌<◌};

use crate::cells::models::{Given, Plan, Right, Source, Spot, Target};
use mq_values::{Memory, Mode};
use std::alloc::Global;

/// The places of an input that change, and what stands there then.
pub type Change = [(usize, Given); 2];

/// Numbers, each made of the one before, for partitions of at most eight cells.
#[derive(Drop)]
pub struct Numbers {
    state: u32,
}

impl Numbers {
    pub fn new() -> Numbers {
        Numbers { state: 7 }
    }

    // The next number, below `end`.
    fn below(&mut self, end: u32) -> u32
        requires { 0 < end }
    {
        self.state = self.state.wrapping_mul(1664525).wrapping_add(1013904223);
        (self.state >> 16) % end
    }

    fn cell(&mut self) -> i128 {
        self.below(8) as i128 + 1
    }

    fn spot(&mut self) -> Spot {
        match self.below(4) {
            0 => Spot::At(self.cell()),
            _ => Spot::Behind(self.below(2) as i128 + 1),
        }
    }

    fn source(&mut self) -> Source {
        let measure = self.below(2);
        (measure, self.spot())
    }

    fn target(&mut self) -> Target {
        let before = self.below(8) as i128;
        match self.below(6) {
            0 => Target::After(before + 1),
            1 => Target::Steps(before + 1, before + 2),
            _ => Target::Cell(before + 1),
        }
    }

    fn right(&mut self) -> Right {
        let source = self.source();
        match self.below(5) {
            0 => Right::Sum(source, self.source()),
            1 => Right::Ratio(source, self.source()),
            2 => self.total(source.0),
            3 => Right::IfPresent(self.cell(), source),
            _ => Right::PresentV(self.cell(), source),
        }
    }

    fn total(&mut self, measure: u32) -> Right {
        let before = self.below(8) as i128;
        Right::Total(measure, before + 1, before + 3)
    }

    fn mode(&mut self) -> Mode {
        match self.below(3) {
            0 => Mode::Update,
            _ => Mode::Upsert,
        }
    }

    fn plan(&mut self) -> Plan {
        Plan {
            mode: self.mode(),
            measure: self.below(2),
            target: self.target(),
            right: self.right(),
        }
    }

    /// Two or three rules.
    pub fn plans(&mut self, alloc: Global) -> Result<Vec<Plan>, Memory> {
        let mut plans = Vec::new(alloc);
        for _ in 0..self.below(2) as u64 + 2 {
            plans.push(self.plan())?;
        }
        Ok(plans)
    }

    fn given(&mut self) -> Given {
        match self.below(3) {
            0 => None,
            _ => Some((self.below(9) as i128, self.below(4) as i128)),
        }
    }

    /// The cells of a partition.
    pub fn input(&mut self, alloc: Global) -> Result<Vec<Given>, Memory> {
        let mut given = Vec::new(alloc);
        for _ in 0..8 {
            given.push(self.given())?;
        }
        Ok(given)
    }

    fn place(&mut self) -> usize {
        self.below(8) as usize
    }

    fn change(&mut self) -> Change {
        [(self.place(), self.given()), (self.place(), self.given())]
    }

    /// Twenty changes.
    pub fn changes(&mut self, alloc: Global) -> Result<Vec<Change>, Memory> {
        let mut changes = Vec::new(alloc);
        for _ in 0..20 {
            changes.push(self.change())?;
        }
        Ok(changes)
    }
}
