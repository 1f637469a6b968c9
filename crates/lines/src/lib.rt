// The eight lines and the two timer inputs, by value: GPDR, AER, DDR and the levels. The rules stand in
// specs/Registers.antt; what a change of signals raises is crate signals. Every function is total.
#![tactic(auto, unfolding(crate::specs::Registers::line_read, crate::specs::Registers::line_written, crate::specs::Registers::with_level, crate::specs::Registers::with_input))]

ghost use Rattle.std.specs.Prelude.{◌≡◌};
ghost use Rattle.lines.specs.Registers.{line_read, line_written, with_level, with_input, reset_lines, fresh_lines};

use channels::Line;

#[derive(Clone, Copy)]
pub struct Lines {
    pub gpdr: u8,
    pub aer: u8,
    pub ddr: u8,
    pub levels: u8,
    pub tai: bool,
    pub tbi: bool,
}

#[derive(Clone, Copy)]
pub enum LineRegister {
    Gpdr,
    Aer,
    Ddr,
}

#[derive(Clone, Copy)]
pub enum TimerInput {
    Tai,
    Tbi,
}

impl Lines {
    pub fn fresh() -> Lines
        ensures { result ≡ fresh_lines }
    {
        Lines {
            gpdr: 0,
            aer: 0,
            ddr: 0,
            levels: 0,
            tai: false,
            tbi: false,
        }
    }

    // The same lines as a literal, which only the type itself can have: the compiler then holds the fields apart,
    // which a copy of the whole would tie together in every event (D87).
    pub fn written_out(self) -> Lines
        ensures { result ≡ self }
    {
        Lines { ..self }
    }

    pub fn reset(self) -> Lines
        ensures { result ≡ reset_lines self }
    {
        Lines {
            levels: self.levels,
            tai: self.tai,
            tbi: self.tbi,
            ..Lines::fresh()
        }
    }

    pub fn read(self, r: LineRegister) -> u8
        ensures { result ≡ line_read r self }
    {
        match r {
            LineRegister::Gpdr => self.gpdr & self.ddr | self.levels & 255 - self.ddr,
            LineRegister::Aer => self.aer,
            LineRegister::Ddr => self.ddr,
        }
    }

    pub fn write(self, r: LineRegister, v: u8) -> Lines
        ensures { result ≡ line_written r v self }
    {
        match r {
            LineRegister::Gpdr => Lines { gpdr: v, ..self },
            LineRegister::Aer => Lines { aer: v, ..self },
            LineRegister::Ddr => Lines { ddr: v, ..self },
        }
    }

    // The lines with line i at this level.
    pub fn with_level(self, i: Line, high: bool) -> Lines
        ensures { result ≡ with_level i high self }
    {
        if 7 < i.0 {
            return self;
        }
        let mask = 1u8 << i.0;
        let levels = if high {
            self.levels | mask
        } else {
            self.levels & 255 - mask
        };
        Lines { levels, ..self }
    }

    pub fn with_input(self, i: TimerInput, high: bool) -> Lines
        ensures { result ≡ with_input i high self }
    {
        match i {
            TimerInput::Tai => Lines { tai: high, ..self },
            TimerInput::Tbi => Lines { tbi: high, ..self },
        }
    }
}
