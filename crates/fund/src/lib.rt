// The efficiency fund (2026-07; articles 18 and 19): a month's fees, and the two calls on a fund, a balance in cents.
#![tactic(auto)]

mod fees;
mod fund_calls;

pub use fund_calls::{collect_fees, pay_out};
