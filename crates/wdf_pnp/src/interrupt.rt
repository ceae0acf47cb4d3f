use std::marker::Model;
use wdf_base::Handle;

/// An interrupt, and which of its two callbacks are declared.
#[derive(Drop)]
pub(crate) struct InterruptSteps {
    pub(crate) interrupt: Handle,
    /// Whether EvtInterruptEnable is declared.
    pub(crate) enables: bool,
    /// Whether EvtInterruptDisable is declared.
    pub(crate) disables: bool,
}

impl Model for InterruptSteps {
    ghost use Rattle.wdf_model.specs.parts.Pnp as pnp;

    ghost Value = { pnp.InterruptSteps };

    ghost view = { λ i. record { interrupt = i.interrupt; enables = i.enables; disables = i.disables } };
}
