//! Block ids and record codes (LLVM Bitcode File Format, "LLVM IR Encoding").

/// MODULE
pub const MODULE_BLOCK: u32 = 8;
/// CONSTANTS
pub const CONSTANTS_BLOCK: u32 = 11;
/// FUNCTION
pub const FUNCTION_BLOCK: u32 = 12;
/// VALUE_SYMTAB
pub const SYMBOLS_BLOCK: u32 = 14;
/// METADATA
pub const METADATA_BLOCK: u32 = 15;
/// TYPE_NEW
pub const TYPES_BLOCK: u32 = 17;

/// MODULE: VERSION [1]
pub const VERSION: u32 = 1;
/// MODULE: TRIPLE [characters]
pub const TRIPLE: u32 = 2;
/// MODULE: DATALAYOUT [characters]
pub const DATALAYOUT: u32 = 3;
/// MODULE: FUNCTION [type, 0, 1 without body, 0, and eleven zeros]
pub const FUNCTION: u32 = 8;

/// TYPE_NEW: NUMENTRY [n]
pub const TYPE_NUMENTRY: u32 = 1;
/// TYPE_NEW: VOID []
pub const TYPE_VOID: u32 = 2;
/// TYPE_NEW: INTEGER [width]
pub const TYPE_INTEGER: u32 = 7;
/// TYPE_NEW: POINTER [to, space]
pub const TYPE_POINTER: u32 = 8;
/// TYPE_NEW: METADATA []
pub const TYPE_METADATA: u32 = 16;
/// TYPE_NEW: STRUCT_NAME [characters]
pub const TYPE_STRUCT_NAME: u32 = 19;
/// TYPE_NEW: STRUCT_NAMED [0, parts]
pub const TYPE_STRUCT_NAMED: u32 = 20;
/// TYPE_NEW: FUNCTION [0, result, parameters]
pub const TYPE_FUNCTION: u32 = 21;

/// CONSTANTS: SETTYPE [type]
pub const CONSTANT_SETTYPE: u32 = 1;
/// CONSTANTS: NULL []
pub const CONSTANT_NULL: u32 = 2;
/// CONSTANTS: UNDEF []
pub const CONSTANT_UNDEF: u32 = 3;
/// CONSTANTS: INTEGER [signed value]
pub const CONSTANT_INTEGER: u32 = 4;

/// METADATA: STRING [characters]
pub const METADATA_STRING: u32 = 1;
/// METADATA: VALUE [type, value]
pub const METADATA_VALUE: u32 = 2;
/// METADATA: NODE [number and 1, or 0]
pub const METADATA_NODE: u32 = 3;
/// METADATA: NAME [characters]
pub const METADATA_NAME: u32 = 4;
/// METADATA: NAMED_NODE [numbers]
pub const METADATA_NAMED_NODE: u32 = 10;

/// VALUE_SYMTAB: ENTRY [value, characters]
pub const SYMBOL_ENTRY: u32 = 1;

/// FUNCTION: DECLAREBLOCKS [n]
pub const DECLAREBLOCKS: u32 = 1;
/// FUNCTION: RET []
pub const INST_RET: u32 = 10;
/// FUNCTION: CALL [0, 32768, function type, function, arguments]
pub const INST_CALL: u32 = 34;
