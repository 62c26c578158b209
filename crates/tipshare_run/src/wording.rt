// The texts that the program writes of itself, and the words that it knows.

pub const HELP_WORD: [u8; 6] = *b"--help";

pub const VERSION_WORD: [u8; 9] = *b"--version";

pub const CANNOT_READ: [u8; 38] = *b"tipshare: cannot read standard input: ";

pub const READ_ADVICE: [u8; 51] = *b"; hand over a job file, as in tipshare < board.job\n";

pub const CANNOT_WRITE: [u8; 43] = *b"tipshare: cannot write to standard output: ";

pub const WRITE_ADVICE: [u8; 60] =
    *b"; let it lead to a file or a pipe that takes the whole text\n";

pub const USAGE: [u8; 70] =
    *b"usage: tipshare < JOB-FILE, or tipshare --help, or tipshare --version\n";

pub const VERSION: [u8; 15] = *b"tipshare 3.0.0\n";

pub const HELP: [u8; 983] =
    *b"tipshare < JOB-FILE     plan which tip of the rack picks each line of a job file\n\
tipshare --help         print this page\n\
tipshare --version      print the version\n\
\n\
The job file is read from standard input; the program parts makes one from a list (parts make LIST).\n\
It has up to 512 lines, each for one placement (version 1) or with its quantity (version 2), up to 2048 in all.\n\
What is printed:\n  \
lines N rack M        how many lines the file has, and how many tips the rack\n  \
off K tips T..        the least number of placements off the tip used most, and the tips that reach it\n  \
quick P, best P       the pairs of placements that share a tip, in each plan; best none where a line is no run\n  \
line I quick T best T the tip of each line in each plan, which all its placements have\n  \
refused N             alone, where the file is refused; docs/what-to-do.md lists the numbers\n\
\n\
Exit status: 0 the text was written whole, refused N too; 1 reading or writing failed; 2 wrong arguments.\n";
