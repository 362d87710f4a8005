//! What stands in a place of the single left sides, one after another.
ghost use Rattle.std.specs.Prelude.{◌≡◌, ◌+◌, [], ◌∷◌, min, length};
ghost use Rattle.mq_values.specs.declared.limits.TheConstants.{MAX_SINGLE_LEFT_SIDES};
ghost use Rattle.mq_ir.specs.Unfolding.{steps_of};
ghost use Rattle.mq_unfold.specs.Spreads as spec;

use crate::steps::Steps;
use mq_ir::SinglePlace;
use mq_values::{Items, MAX_SINGLE_LEFT_SIDES};
use std::marker::Model;

/// The places that a place of a left side stands for, in order. Steps are not made before they are counted.
#[derive(Drop)]
pub struct Spread {
    form: Form,
}

/// One place, places one after another, or steps.
#[derive(Drop)]
pub enum Form {
    One(SinglePlace),
    Listed(Items<SinglePlace>),
    Stepped(Steps),
}

impl Model for Spread {
    ghost use Rattle.std.specs.Prelude.{List};
    ghost use Rattle.mq_ir.specs.declared.query.SinglePlace.{SinglePlace};
    ghost use Rattle.mq_unfold.specs.Spreads.{form_places};
    ghost use Rattle.std.specs.Coded.{codes};
    ghost use Rattle.mq_values.specs.contracts.operators.DimTest as dim_test;

    ghost Value = { List SinglePlace };

    ghost coded = { Prim.hlevel (codes, dim_test.the_row.coded) };

    ghost view = { λ s. form_places s.form };
}

impl Spread {
    /// One place.
    pub fn one(place: SinglePlace) -> Spread
        ensures { result ≡ place ∷ [] }
    {
        Spread {
            form: Form::One(place),
        }
    }

    /// Places one after another.
    pub fn listed(places: Items<SinglePlace>) -> Spread
        ensures { result ≡ places }
    {
        Spread {
            form: Form::Listed(places),
        }
    }

    /// The steps of a FOR.
    pub fn stepped(steps: Steps) -> Spread
        ensures { result ≡ steps_of steps.down steps.start steps.stop steps.step }
    {
        Spread {
            form: Form::Stepped(steps),
        }
    }

    /// How many there are, or one more than there may be single left sides where they are more than these.
    pub fn count(&self) -> usize
        ensures { result ≡ min (length self.now) (MAX_SINGLE_LEFT_SIDES + 1) }
    {
        match &self.form {
            Form::One(_) => 1,
            Form::Listed(places) => places.len().min(MAX_SINGLE_LEFT_SIDES + 1),
            Form::Stepped(steps) => steps.count(),
        }
    }

    /// What it is made of.
    pub fn into_form(self) -> Form
        ensures { spec.form_places result ≡ self }
    {
        let Spread { form } = self;
        form
    }
}
