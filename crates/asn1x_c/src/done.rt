//! What calls return to C.

/// What a call over octets comes to.
#[repr(C)]
#[derive(Clone, Copy, Debug)]
pub struct Done {
    /// 0, or the number of the refusal that it stopped for, or 255 for an argument that is none.
    pub refusal: u32,
    /// How many values were done.
    pub values: u64,
    /// How many octets there are to write; of a call that reads the first value, how many it has.
    pub octets: usize,
}

/// What a call that writes one value comes to.
#[repr(C)]
#[derive(Clone, Copy, Debug)]
pub struct One {
    /// 0, or the number of the refusal, or 255 for an argument that is none.
    pub refusal: u32,
    /// How many octets the value has; 0 where none was written.
    pub used: usize,
    /// How many octets there are to write.
    pub octets: usize,
}

/// Why a module gives no type, and where.
#[repr(C)]
#[derive(Clone, Copy, Debug)]
pub struct ModuleFault {
    /// 0, or the number of the fault, 21 to 33, or 255 for a name that is no text.
    pub number: u32,
    /// The line, from 1; 1 for a fault that has no place, 0 where there is none.
    pub line: u32,
    /// The column, likewise.
    pub column: u32,
}
