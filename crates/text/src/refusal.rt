//! Refusals, for a pen.
ghost use Rattle.refusals.specs.Refusals.{refusal_text};

use crate::pen::{Compose, Pen};
use refusals::Refusal;

/// `(fault NUMBER LINE)`.
impl Compose for Refusal {
    ghost text = { refusal_text };

    fn compose(&self, pen: &mut Pen) {
        pen.put(b"(fault ");
        pen.put_decimal(u32::from(self.fault));
        pen.put(b" ");
        pen.put_decimal(self.line);
        pen.put(b")");
    }
}
