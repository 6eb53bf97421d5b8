// The limits of document 01, from lib.rs and gles/mod.rs; the last six are document 01's own.
pub const MAX_BIND_GROUPS: usize = 8;

pub const MAX_VERTEX_BUFFERS: usize = 16;

pub const MAX_COLOR_ATTACHMENTS: usize = 8;

pub const MAX_TEXTURE_SLOTS: usize = 16;

pub const MAX_SAMPLERS: usize = 16;

pub const MAX_VERTEX_ATTRIBUTES: usize = 16;
// Words of immediate data.
pub const MAX_IMMEDIATES: usize = 64;
// Immediate descriptors: one for each word and each of three shader stages.
pub const MAX_IMMEDIATES_COMMANDS: usize = 192;

pub const MAX_BINDINGS: usize = 64;

pub const MAX_BINDING_NUMBER: u32 = 1000;

pub const MAX_COMMANDS: usize = 4096;

pub const MAX_BYTES: usize = 65536;

pub const MAX_QUERIES: usize = 1024;
// Bits of the invalidation set: eight colours, depth, stencil.
pub const MAX_INVALIDATIONS: u32 = 10;
