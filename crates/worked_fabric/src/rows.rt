mod closing_rows;
mod memory_rows;
mod round_rows;
mod site_rows;
mod slot_rows;
mod tables;
mod thread_rows;
