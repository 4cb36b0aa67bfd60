//! What the words that the program is called with ask for.
ghost use Rattle.std.specs.Prelude.{◌≡◌, map, string_bytes, None, false};
ghost use Rattle.lru_folder.specs.Names.{has_slash};
ghost use Rattle.checkpoint_tool_inside.specs.Requests.{asked, misuse_of, request_before, request_of, request_of_three, IsPossible};

/// What is wrong with the words.
#[derive(Clone, Copy, Debug, PartialEq, Eq)]
pub enum TaskMisuse {
    /// They are not as many as a command has.
    Words,
    /// The first is no command.
    Command,
    /// The name of the file has a slash.
    FileName,
    /// The name of the folder is empty.
    NoFolder,
    /// The name of the file is empty.
    NoFile,
    /// A word is no text in UTF-8.
    NoText,
}

/// Why the words were not read.
#[derive(Clone, Copy, Debug, PartialEq, Eq)]
pub enum WordsError {
    /// No memory was found for them.
    Memory,
    /// One is no text in UTF-8.
    NoText,
}

/// What the words ask for.
#[derive(Clone, Copy)]
pub enum Task<'a> {
    /// To tell what the program does.
    Help,
    /// To save the rows of the input as the next checkpoint.
    Save { dir: &'a str, file_name: &'a str },
    /// To write the rows of the newest checkpoint.
    Show { dir: &'a str, file_name: &'a str },
    /// To write the rows of the one below it.
    ShowBefore { dir: &'a str, file_name: &'a str },
    /// To tell of each generation whether it is whole.
    Check { dir: &'a str, file_name: &'a str },
    /// Nothing that the program does.
    Misused(TaskMisuse),
}

/// What these words ask for: `--help`, or a command with a folder and the name of a file in it, which has no slash; behind
/// `show` there may be `--before`.
pub fn request_from(words: &[String]) -> Task<'_>
    ensures read { asked result ≡ request_of (map string_bytes words.now) }
    ensures possible { IsPossible (asked result) }
{
    match words {
        [word] => {
            if word.as_str() == "--help" {
                Task::Help
            } else {
                Task::Misused(TaskMisuse::Words)
            }
        }
        [command, dir, file_name] => of_three(command, dir, file_name),
        [command, option, dir, file_name] => {
            if command.as_str() == "show" && option.as_str() == "--before" {
                before(dir, file_name)
            } else {
                Task::Misused(TaskMisuse::Words)
            }
        }
        _ => Task::Misused(TaskMisuse::Words),
    }
}

// What is wrong with the name of a folder and that of a file in it, if something is.
fn misuse_of(dir: &str, file_name: &str) -> Option<TaskMisuse>
    ensures told { result ≡ misuse_of dir.now file_name.now }
    ensures possible { result ≡ None → has_slash file_name.now ≡ false }
{
    if dir.is_empty() {
        Some(TaskMisuse::NoFolder)
    } else if file_name.is_empty() {
        Some(TaskMisuse::NoFile)
    } else if file_name.as_bytes().contains(&b'/') {
        Some(TaskMisuse::FileName)
    } else {
        None
    }
}

fn of_three<'a>(command: &str, dir: &'a str, file_name: &'a str) -> Task<'a>
    ensures read { asked result ≡ request_of_three command.now dir.now file_name.now }
    ensures possible { IsPossible (asked result) }
{
    if let Some(misuse) = misuse_of(dir, file_name) {
        return Task::Misused(misuse);
    }
    if command == "save" {
        Task::Save { dir, file_name }
    } else if command == "show" {
        Task::Show { dir, file_name }
    } else if command == "check" {
        Task::Check { dir, file_name }
    } else {
        Task::Misused(TaskMisuse::Command)
    }
}

fn before<'a>(dir: &'a str, file_name: &'a str) -> Task<'a>
    ensures read { asked result ≡ request_before dir.now file_name.now }
    ensures possible { IsPossible (asked result) }
{
    match misuse_of(dir, file_name) {
        Some(misuse) => Task::Misused(misuse),
        None => Task::ShowBefore { dir, file_name },
    }
}
