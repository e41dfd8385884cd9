//! The name of a wire.

use std::marker::Brand;

/// Which wire it is, for contracts alone. Each call of a program picks it.
pub trait Naming {
    ghost use Rattle.rc_wire.specs.Names.{WireName};

    ghost wire: { WireName };
}

impl Naming for Brand {
    ghost use Rattle.rc_wire.specs.Names.{no_wire};

    ghost wire = { no_wire };
}
