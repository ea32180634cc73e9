//! The rules of an RBAC policy: permissions and principals, the reading of their messages, and which requests
//! they match.
#![tactic(auto)]

mod authenticated;
mod causes;
mod cidr;
mod fields;
mod header;
mod int64_range;
mod keys;
pub mod laws;
mod leaf;
mod leaves;
mod list;
mod matcher;
mod matching;
mod member;
mod needs;
mod path;
mod place_words;
mod pool;
mod ports;
mod read;
mod rule;
mod search;
mod text;
mod words;

pub use causes::{Causes, rule_causes};
pub use fields::trailing_run;
pub use keys::{AND, NOT, OR, RULES};
pub use list::{RuleList, Rules};
pub use matching::any_matches;
pub use needs::{header_name, header_value, path_start};
pub use place_words::{path_in_rule, place_in_rule};
pub use read::{RULE_DEPTH, read_rule, read_rule_at, read_rules, read_rules_at};
pub use rule::Side;
