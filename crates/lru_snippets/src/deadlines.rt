//! A cache whose entries have deadlines.

use lru_cache::deadlines::DeadlineCache;

pub fn session_of(sessions: &mut DeadlineCache<u64, u64>, id: u64, time: u64) -> Option<u64> {
    let used = sessions.update(time, &id, |session, _weight| {
        session.deadline = time.saturating_add(1800);
        session.value
    });
    match used {
        Ok(user) => user,
        Err(_past) => None, // the entry, which is out of the cache now
    }
}
