//! What a save, a load, a list and a log tell, as one text or one answer: so that a test compares all of it at once.
use pingora_lru_files::persistence::{
    Folder, Listed, ShardLoadReport, ShardSaveError, ShardSaveFailure, ShardSaveReport,
};
use std::alloc::{AllocError, Global};
use std::fmt::Display;

/// The counts of a save or its error, and its failures: a line for each.
pub fn told_save<E: Display>(
    alloc: Global,
    saved: &Result<ShardSaveReport<E>, ShardSaveError<E>>,
) -> Result<String, AllocError> {
    let mut text = String::new(alloc);
    let failures: &[ShardSaveFailure<E>] = match saved {
        Ok(report) => {
            let (saved, failed) = (report.saved_shards, report.failed_shards);
            write!(text, "saved {saved} failed {failed}\n")?;
            &report.failures
        }
        Err(error) => {
            write!(text, "{error}\n")?;
            match error {
                ShardSaveError::AllShardsFailed { failures, .. } => failures,
                ShardSaveError::Setup(_) => &[],
            }
        }
    };
    for failure in failures {
        write!(text, "{failure}\n")?;
    }
    Ok(text)
}

/// The counts of a load and its failures, and then those of its cleanup: a line for each.
pub fn told_load<E: Display>(
    alloc: Global,
    report: &ShardLoadReport<E>,
) -> Result<String, AllocError> {
    let mut text = String::new(alloc);
    let (loaded, missing, errored) = (
        report.loaded_shards,
        report.missing_shards,
        report.error_shards,
    );
    write!(
        text,
        "loaded {loaded} missing {missing} errored {errored}\n"
    )?;
    for failure in &report.failures {
        write!(text, "{failure}\n")?;
    }
    match &report.temp_cleanup {
        Ok(cleanup) => {
            let removed = cleanup.removed_files;
            write!(text, "removed {removed}\n")?;
            for failure in &cleanup.failures {
                write!(text, "{failure}\n")?;
            }
        }
        Err(AllocError) => text.push_str("removed none\n")?,
    }
    Ok(text)
}

/// The names that a folder lists, each with a space behind it, and `?` for one that is no UTF-8; or why it lists none.
pub fn told_names<F: Folder>(
    alloc: Global,
    folder: &mut F,
    dir: &str,
) -> Result<String, AllocError> {
    let mut text = String::new(alloc);
    match folder.list(dir) {
        Ok(listed) => {
            for entry in &listed {
                match entry {
                    Listed::Name(name) => write!(text, "{name} ")?,
                    Listed::Unreadable => text.push_str("? ")?,
                }
            }
        }
        Err(fault) => write!(text, "{fault}")?,
    }
    Ok(text)
}

/// Whether these are the lines of a log: how each begins, and how it ends.
pub fn are_lines(lines: &[String], wanted: &[(&str, &str)]) -> bool {
    for (line, (level, text)) in lines.iter().zip(wanted) {
        if !(line.as_str().starts_with(*level) & line.as_str().ends_with(*text)) {
            return false;
        }
    }
    lines.len() == wanted.len()
}

/// These texts as one.
pub fn joined(alloc: Global, parts: &[&str]) -> Result<String, AllocError> {
    let mut text = String::new(alloc);
    for part in parts {
        text.push_str(part)?;
    }
    Ok(text)
}
