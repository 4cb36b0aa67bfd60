//! Tests of the actors, from their mailboxes up (`lru_mailbox`, `lru_actors`, `lru_inbox`, `lru_boxes`, `lru_async`): worked
//! rows by one owner, each call by its effect, and what only running threads show.
//!
//! What is expected is worked out by hand, or is what a plain simulation answers, and never what the program answered.
#![tactic(auto)]

#[cfg(test)]
mod accounts;
#[cfg(test)]
mod actor_rows;
#[cfg(test)]
mod box_rows;
#[cfg(test)]
mod callbacks;
#[cfg(test)]
mod calls;
#[cfg(test)]
mod causes;
#[cfg(test)]
mod cells;
#[cfg(test)]
mod drawn;
#[cfg(test)]
mod inboxes;
#[cfg(test)]
mod ledgers;
#[cfg(test)]
mod limits;
#[cfg(test)]
mod logged;
#[cfg(test)]
mod mailbox_rows;
#[cfg(test)]
mod mailboxes;
#[cfg(test)]
mod replays;
#[cfg(test)]
mod rows;
#[cfg(test)]
mod running;
#[cfg(test)]
mod saves;
#[cfg(test)]
mod served;
#[cfg(test)]
mod shards;
#[cfg(test)]
mod single;
#[cfg(test)]
mod soak;
#[cfg(test)]
mod stays;
#[cfg(test)]
mod waiting;
