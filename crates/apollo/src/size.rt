// The sizes in bytes that document 01 gives. The definitions have the same names.
pub const FRAME: usize = 512; // a frame, and a slot

pub const CHECK: usize = 480; // where a frame's check begins: it is of the bytes before it

pub const ENTRY: usize = 400; // the longest entry

pub const OUT: usize = 1024; // the shortest out buffer (tray)

pub const PAIR: usize = 1024; // two frames
