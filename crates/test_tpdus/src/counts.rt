//! What a sweep counts.

use std::fmt;
use x224_tpdu::{TpFault, Tpdu};

/// How many answers of each kind there were.
#[derive(Clone, Copy, Debug, PartialEq, Eq, Default)]
pub struct Counts {
    pub cr: u64,
    pub cc: u64,
    pub dr: u64,
    pub dc: u64,
    pub dt: u64,
    pub ak: u64,
    pub er: u64,
    pub empty: u64,
    pub length: u64,
    pub code: u64,
    pub parameter: u64,
    pub value: u64,
    pub class: u64,
    pub user_data: u64,
    /// TPDUs that were read again as what was written.
    pub same: u64,
    /// TPDUs that weren't.
    pub other: u64,
}

impl Counts {
    /// Counts an answer.
    pub fn add(&mut self, answer: &Result<Tpdu, TpFault>) {
        let count = match answer {
            Ok(Tpdu::Cr { .. }) => &mut self.cr,
            Ok(Tpdu::Cc { .. }) => &mut self.cc,
            Ok(Tpdu::Dr { .. }) => &mut self.dr,
            Ok(Tpdu::Dc { .. }) => &mut self.dc,
            Ok(Tpdu::Dt { .. }) => &mut self.dt,
            Ok(Tpdu::Ak { .. }) => &mut self.ak,
            Ok(Tpdu::Er { .. }) => &mut self.er,
            Err(TpFault::Empty) => &mut self.empty,
            Err(TpFault::Length { .. }) => &mut self.length,
            Err(TpFault::Code(_)) => &mut self.code,
            Err(TpFault::Parameter(_)) => &mut self.parameter,
            Err(TpFault::Value { .. }) => &mut self.value,
            Err(TpFault::Class(_)) => &mut self.class,
            Err(TpFault::UserData { .. }) => &mut self.user_data,
        };
        *count = count.saturating_add(1);
    }
}

impl fmt::Display for Counts {
    fn fmt<W: fmt::Write>(&self, f: &mut fmt::Formatter<W>) -> fmt::Result {
        writeln!(
            f,
            "CR {}, CC {}, DR {}, DC {}",
            self.cr, self.cc, self.dr, self.dc
        )?;
        writeln!(f, "DT {}, AK {}, ER {}", self.dt, self.ak, self.er)?;
        writeln!(
            f,
            "Empty {}, Length {}, Code {}",
            self.empty, self.length, self.code
        )?;
        writeln!(f, "Class {}, Parameter {}", self.class, self.parameter)?;
        writeln!(f, "Value {}, UserData {}", self.value, self.user_data)?;
        write!(
            f,
            "written and read again: same {}, other {}",
            self.same, self.other
        )
    }
}
