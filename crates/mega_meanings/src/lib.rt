//! What serves the messages of queues, and what it means (CIDR 2011, queues).
#![tactic(auto)]

mod built_in;
mod handler_table;
mod queue_handlers;
mod store_handler;

pub use built_in::BuiltIn;
pub use handler_table::{HandlerTable, TableFault, tables_mean_what_they_spell};
pub use queue_handlers::QueueHandlers;
pub use store_handler::StoreHandler;
