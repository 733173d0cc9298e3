//! The numbers of the marks of operators.

/// `+`
pub(crate) const PLUS: u8 = 12;
/// `-`
pub(crate) const MINUS: u8 = 13;
/// `*`
pub(crate) const TIMES: u8 = 14;
/// `/`
pub(crate) const DIVIDE: u8 = 15;
/// `%`
pub(crate) const MODULO: u8 = 16;
/// `<`
pub(crate) const LESS: u8 = 17;
/// `>`
pub(crate) const GREATER: u8 = 18;
/// `!`
pub(crate) const NOT: u8 = 19;
/// `~`
pub(crate) const COMPLEMENT: u8 = 20;
/// `&`
pub(crate) const BIT_AND: u8 = 21;
/// `|`
pub(crate) const BIT_OR: u8 = 22;
/// `^`
pub(crate) const BIT_XOR: u8 = 23;
/// `&&`
pub(crate) const AND: u8 = 24;
/// `||`
pub(crate) const OR: u8 = 25;
/// `==`
pub(crate) const EQUAL: u8 = 26;
/// `!=`
pub(crate) const NOT_EQUAL: u8 = 27;
/// `<=`
pub(crate) const AT_MOST: u8 = 28;
/// `>=`
pub(crate) const AT_LEAST: u8 = 29;
/// `<<`
pub(crate) const SHIFT_LEFT: u8 = 30;
/// `>>`
pub(crate) const SHIFT_RIGHT: u8 = 31;
