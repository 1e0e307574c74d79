//! Rows of version 3, and what stands for one.
ghost use Rattle.std.specs.Prelude.{◌≡◌, IfOk};
ghost use Rattle.rb_arguments.specs.declared.rpcb.Rpcb.{Rpcb};
ghost use Rattle.rb_show.specs.Texts.{HasBytes};
ghost use Rattle.rb_show.specs.Rows.{itself, address_of_port, mapping_row};

use crate::texts::prot_text;
use rb_arguments::{Mapping, Rpcb};
use rb_xdr::Text;
use std::alloc::{AllocError, Global};

/// An item of a list that stands for a row of version 3.
pub trait AsRow {
    /// The row that it stands for.
    ghost stands_for: { Self → Rpcb };

    /// Makes the row that it stands for. `AllocError` if an allocation is refused.
    fn as_row(&self, alloc: Global) -> Result<Rpcb, AllocError>
        ensures { IfOk result (λ row. row ≡ stands_for self.now) };
}

impl AsRow for Rpcb {
    ghost stands_for = { itself };

    fn as_row(&self, _alloc: Global) -> Result<Rpcb, AllocError> {
        Ok(Rpcb {
            prog: self.prog,
            vers: self.vers,
            netid: Text::new(self.netid.as_slice()),
            addr: Text::new(self.addr.as_slice()),
            owner: Text::new(self.owner.as_slice()),
        })
    }
}

/// The address of a port on every host.
fn address_of_port(alloc: Global, port: u32) -> Result<String, AllocError>
    ensures { IfOk result (HasBytes (address_of_port port)) }
{
    let (high, low) = (port / 256, port % 256);
    format!(in alloc; "0.0.0.0.{high}.{low}")
}

impl AsRow for Mapping {
    ghost stands_for = { mapping_row };

    #[tactic(auto, using(crate::proofs::RowTexts::prot_short, crate::proofs::RowTexts::address_short))]
    fn as_row(&self, alloc: Global) -> Result<Rpcb, AllocError> {
        let netid = prot_text(alloc, self.prot)?;
        let addr = address_of_port(alloc, self.port)?;
        Ok(Rpcb {
            prog: self.prog,
            vers: self.vers,
            netid: Text::new(netid.as_bytes()),
            addr: Text::new(addr.as_bytes()),
            owner: Text::new(b"unknown"),
        })
    }
}
