// Each call on parts and rules as plain numbers, four numbers a part and two a rule, for a caller who has no records.
#![tactic(auto)]

mod order_by_tips_call;
mod order_call;
mod records;
mod windows_call;

pub use order_by_tips_call::order_by_tips;
pub use order_call::order_numbers;
pub use windows_call::window_numbers;
