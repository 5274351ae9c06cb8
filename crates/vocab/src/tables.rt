//! Lists of numbers: places of a study, and rules as tables.

use lists::Items;

/// Places of a list, from 0.
pub type Places = Items<u32>;

/// A rule: an outcome code for each profile, in the order of profile numbers. Of a rule that chooses an
/// alternative the code is the alternative, of one that ranks them the number of the ranking; and where the rule
/// gives sets, digit x of the code and one, in base 2, says whether alternative x is an element.
pub type Table = Items<u8>;
