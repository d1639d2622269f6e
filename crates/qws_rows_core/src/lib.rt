//! Worked rows of windows and of the whole step, command by command, as tests.
#![tactic(auto)]

#[cfg(test)]
mod alloc_rows;
#[cfg(test)]
mod arrangements;
#[cfg(test)]
mod command_rows;
#[cfg(test)]
mod loss_rows;
#[cfg(test)]
mod mail_rows;
#[cfg(test)]
mod plan_rows;
#[cfg(test)]
mod rows;
#[cfg(test)]
mod server;
#[cfg(test)]
mod stack_rows;
#[cfg(test)]
mod window_rows;
