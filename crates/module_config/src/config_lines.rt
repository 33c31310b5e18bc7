//! The contents of a text.

ghost use Rattle.std.specs.Prelude.{◌≡◌, ◌++◌, ◌∷◌, [], IfOk, OnOk};
ghost use Rattle.module_config.specs.Reads.{read_line, read_text};
ghost use Rattle.module_config.specs.Texts.{fault_words};
ghost use Rattle.module_config.specs.Readings.{read_of};

use crate::config_line::with_line;
use crate::line_fault::ConfigFault;
use crate::said::{NOTHING, Said};
use std::alloc::{AllocError, Global};

/// A wrong line.
#[derive(Debug, Drop)]
pub struct BadLine {
    /// Its number, from 1 on.
    pub line: usize,
    /// Its message.
    pub text: String,
}

/// The contents of a text: the options of its good lines, and the wrong lines.
#[derive(Drop)]
pub struct Config {
    /// The options of the good lines.
    pub said: Said,
    /// How many lines there are.
    pub lines: usize,
    /// The wrong lines, in their order.
    pub faults: Vec<BadLine>,
}

impl Config {
    /// Appends the fault of the line of this number.
    fn add_bad(
        &mut self,
        alloc: Global,
        number: usize,
        line: &str,
        fault: ConfigFault,
    ) -> Result<(), AllocError>
        ensures said { self.new.said ≡ self.old.said }
        ensures added { OnOk result ((read_of self.new).faults
            ≡ (read_of self.old).faults ++ (number, fault_words fault line.now) ∷ []) }
    {
        let text = fault.words(alloc, line)?;
        self.faults.push(BadLine { line: number, text })?;
        Ok(())
    }

    /// Takes another line.
    fn take(&mut self, alloc: Global, line: &str) -> Result<(), AllocError>
        ensures { OnOk result (read_of self.new ≡ read_line (read_of self.old) line.now) }
    {
        let Some(number) = self.lines.checked_add(1) else {
            return Err(AllocError);
        };
        match with_line(self.said, line) {
            Ok(said) => self.said = said,
            Err(fault) => self.add_bad(alloc, number, line, fault)?,
        }
        self.lines = number;
        Ok(())
    }
}

/// The options in a text, one per line, and each wrong line. A line is `NAME VALUE`, `NAME=VALUE` or a `NAME` alone, up
/// to a `#`; an empty line adds nothing, and neither does a wrong one.
pub fn config_in(alloc: Global, text: &str) -> Result<Config, AllocError>
    ensures { IfOk result (λ config. read_of config ≡ read_text text.now) }
{
    let mut config = Config {
        said: NOTHING,
        lines: 0,
        faults: Vec::new(alloc),
    };
    for line in text.split('\n') {
        config.take(alloc, line)?;
    }
    Ok(config)
}
