// An image that was admitted, with its source.
use crate::admitted::Admitted;
use skopeo_outside::{Files, Helper};
use std::marker::Model;
use transports::Source;

/// An image that was admitted, and the source that gave it.
#[derive(Drop)]
pub struct Taken<F: Files, H: Helper> {
    pub from: Source,
    pub image: Admitted<F, H>,
}

impl<F: Files, H: Helper> Model for Taken<F, H> {
    ghost use Rattle.std.specs.Coded.{codes};
    ghost use Rattle.skopeo_outside.specs.Shelf.{tree_code};
    ghost use Rattle.admission.specs.Taken.{TakenImage};

    ghost Value = { TakenImage };

    ghost coded = { Prim.hlevel (codes, tree_code) };

    ghost view = { λ t. record { from = t.from; image = t.image } };
}
