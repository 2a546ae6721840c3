// The greatest sizes that documents 01 and 02 allow: the bytes of a name, of the root and of a module, the nodes of a sheet, and
// the level of indentation of a text.
pub const NAME_BYTES: usize = 64;

pub const ROOT_BYTES: usize = 64;

pub const MODULE_BYTES: usize = 128;

pub const NODES: usize = 64;

pub const LEVEL: usize = 8;
