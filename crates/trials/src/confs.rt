// What the text of a file registries.conf says. In a row `;` stands for the end of a line.
use registries_conf::{Conf, ConfFault, read_conf};
use skopeo_outside::{Memory, Text};
use std::alloc::Global;

/// The configuration of a row.
pub fn conf_of(alloc: Global, row: &str) -> Result<Conf, ConfFault> {
    let mut text = Text::new(alloc);
    for line in row.split(';') {
        text.push_str(line)?;
        text.push_str("\n")?;
    }
    read_conf(alloc, text.as_str().as_bytes())
}

/// That a text is read, or its first fault.
pub fn read(alloc: Global, row: &str) -> Result<Text, Memory> {
    match conf_of(alloc, row) {
        Ok(_) => Text::from_str(alloc, "read"),
        Err(fault) => Ok(Text::from_string(format!(in alloc; "{fault:?}")?)),
    }
}

/// All that a text says.
pub fn settings(alloc: Global, row: &str) -> Result<Text, Memory> {
    match conf_of(alloc, row) {
        Ok(conf) => Ok(Text::from_string(format!(in alloc; "{conf:?}")?)),
        Err(fault) => Ok(Text::from_string(format!(in alloc; "{fault:?}")?)),
    }
}
