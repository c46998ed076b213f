//! The rules that checkers go by.

use crate::words::{Fault, index_of, number_of, small_of};
use setup_access::Rules;
use watch_word::Layout;

/// The cells of memory, one every 64 bytes.
pub const CELLS: [u64; 16] = [
    0x10000, 0x10040, 0x10080, 0x100c0, 0x10100, 0x10140, 0x10180, 0x101c0, 0x10200, 0x10240,
    0x10280, 0x102c0, 0x10300, 0x10340, 0x10380, 0x103c0,
];

/// The rules of some checkers.
#[derive(Clone, Copy)]
pub struct Setting {
    pub rules: Rules,
    /// The task that has its reports disabled, if there is one.
    pub disabled: Option<u32>,
}

/// The rules where a row says no others.
const USUAL: Setting = Setting {
    rules: Rules {
        slots: 64,
        skip: 0,
        randomize: false,
        seed: 1,
        value_change_only: true,
        plain_writes_atomic: true,
        layout: Layout::W64,
        turns: 1_000_000,
    },
    disabled: None,
};

impl Setting {
    /// The setting of a text: words with a blank between two of them, `usual` where nothing is changed.
    pub fn read(text: &str) -> Result<Setting, Fault> {
        let mut setting = USUAL;
        for word in text.split(' ') {
            match word.split_once('=') {
                Some((name, number)) => setting.set(name, number)?,
                None => setting.choose(word)?,
            }
        }
        Ok(setting)
    }

    /// Changes a number.
    fn set(&mut self, name: &str, number: &str) -> Result<(), Fault> {
        match name {
            "slots" => self.rules.slots = index_of(number)?,
            "skip" => self.rules.skip = number_of(number)?,
            "turns" => self.rules.turns = number_of(number)?,
            "disabled" => self.disabled = Some(small_of(number)?),
            _ => return Err(Fault::NoRow),
        }
        Ok(())
    }

    /// Changes what a word says.
    fn choose(&mut self, word: &str) -> Result<(), Fault> {
        match word {
            "usual" => {}
            // hits are reported where no change was seen too
            "every_hit" => self.rules.value_change_only = false,
            // plain writes don't count as marked
            "strict" => self.rules.plain_writes_atomic = false,
            "w32" => self.rules.layout = Layout::W32,
            _ => return Err(Fault::NoRow),
        }
        Ok(())
    }
}
