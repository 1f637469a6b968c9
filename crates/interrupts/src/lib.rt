// The interrupt controller's registers: four sets of sixteen channels and the vector register, by value.
// The rules stand in specs/Interrupts.antt; those of requests and of the acknowledge are crate requests.
// A method hands back the interrupts as they then are. Every function is total.
#![tactic(auto, unfolding(channels::specs::Channels::has, crate::specs::Interrupts::kept, crate::specs::Interrupts::S, crate::specs::Interrupts::vector_written, crate::specs::Interrupts::interrupt_read, crate::specs::Interrupts::interrupt_written, crate::specs::Interrupts::raised, crate::specs::Interrupts::interrupt_rule))]

ghost use Rattle.std.specs.Prelude.{◌≡◌};
ghost use Rattle.interrupts.specs.Interrupts.{kept, S, enabled_written, pending_written, service_written, mask_written, vector_written, vector_bits, interrupt_read, interrupt_written, clear_interrupts, raised, interrupt_rule};

use channels::Half;

// The registers of the interrupt controller.
#[derive(Clone, Copy)]
pub enum InterruptRegister {
    Ier(Half),
    Ipr(Half),
    Isr(Half),
    Imr(Half),
    Vr,
}

#[derive(Clone, Copy)]
pub struct Interrupts {
    pub enabled: u16,
    pub pending: u16,
    pub service: u16,
    pub mask: u16,
    pub vector: u8,
}

// The set with the bits of a register cleared where v is 0.
fn keep(h: Half, s: u16, v: u8) -> u16
    ensures { result ≡ kept h s v }
{
    channels::with_half(h, s, channels::half_of(h, s) & v)
}

// The bits of VR that are stored and read.
fn vector_bits(v: u8) -> u8
    ensures { result ≡ vector_bits v }
{
    v / 8 * 8
}

// S of a vector register.
pub fn software_end(vector: u8) -> bool
    ensures { result ≡ S vector }
{
    vector / 8 % 2 == 1
}

impl Interrupts {
    pub fn clear() -> Interrupts
        ensures { result ≡ clear_interrupts }
    {
        Interrupts {
            enabled: 0,
            pending: 0,
            service: 0,
            mask: 0,
            vector: 0,
        }
    }

    // The same interrupts as a literal, as of the lines (D87).
    pub fn written_out(self) -> Interrupts
        ensures { result ≡ self }
    {
        Interrupts { ..self }
    }

    // Each register is written by a rule of its own, so each has a function of its own.
    fn write_enabled(self, h: Half, v: u8) -> Interrupts
        ensures { result ≡ enabled_written h v self }
    {
        Interrupts {
            enabled: channels::with_half(h, self.enabled, v),
            pending: keep(h, self.pending, v),
            ..self
        }
    }

    fn write_pending(self, h: Half, v: u8) -> Interrupts
        ensures { result ≡ pending_written h v self }
    {
        Interrupts {
            pending: keep(h, self.pending, v),
            ..self
        }
    }

    fn write_service(self, h: Half, v: u8) -> Interrupts
        ensures { result ≡ service_written h v self }
    {
        Interrupts {
            service: keep(h, self.service, v),
            ..self
        }
    }

    fn write_mask(self, h: Half, v: u8) -> Interrupts
        ensures { result ≡ mask_written h v self }
    {
        Interrupts {
            mask: channels::with_half(h, self.mask, v),
            ..self
        }
    }

    fn write_vector(self, v: u8) -> Interrupts
        ensures { result ≡ vector_written v self }
    {
        let service = if software_end(v) { self.service } else { 0 };
        Interrupts {
            service,
            vector: vector_bits(v),
            ..self
        }
    }

    pub fn read(self, r: InterruptRegister) -> u8
        ensures { result ≡ interrupt_read r self }
    {
        match r {
            InterruptRegister::Ier(h) => channels::half_of(h, self.enabled),
            InterruptRegister::Ipr(h) => channels::half_of(h, self.pending),
            InterruptRegister::Isr(h) => channels::half_of(h, self.service),
            InterruptRegister::Imr(h) => channels::half_of(h, self.mask),
            InterruptRegister::Vr => vector_bits(self.vector),
        }
    }

    pub fn write(self, r: InterruptRegister, v: u8) -> Interrupts
        ensures { result ≡ interrupt_written r v self }
    {
        match r {
            InterruptRegister::Ier(h) => self.write_enabled(h, v),
            InterruptRegister::Ipr(h) => self.write_pending(h, v),
            InterruptRegister::Isr(h) => self.write_service(h, v),
            InterruptRegister::Imr(h) => self.write_mask(h, v),
            InterruptRegister::Vr => self.write_vector(v),
        }
    }

    // Raises each channel of a set.
    pub fn raise(self, s: u16) -> Interrupts
        ensures { result ≡ raised s self }
    {
        Interrupts {
            pending: self.pending | s & self.enabled,
            ..self
        }
    }

    pub fn keeps_rule(self) -> bool
        ensures { result ≡ interrupt_rule self }
    {
        self.vector % 8 == 0
            && self.pending & self.enabled == self.pending
            && (software_end(self.vector) || self.service == 0)
    }
}
