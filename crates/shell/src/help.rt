//! The text of the help besides the options.

/// The release that `--version` prints. `include/doorvervain.h` states it too, and `tests/release` checks that they agree.
pub const RELEASE: &str = "0.2.0";

/// The first lines of help.
pub const ABOUT: &str = "\
Runs a script of file calls over a file system held in memory, which is empty
or that of an image (--load), and prints the reply to each line.";

/// The last lines of help: what a script is.
pub const SCRIPTS: &str = "\
Scripts:
  A script is a text. Each line is one call, which is made and answered before
  the next line is read. An empty line and a line that begins with # are
  ignored.

  A path P is / or names behind slashes, as /a/x; a space in it is written %20.
  OFF, LEN and N are numbers of bytes. HEX is bytes in hexadecimal, or - for
  none. S is the name of a snapshot: letters, digits, '.', '_' and '-'. M is a
  number, the time of the last modification (mtime).

  Line              Reply           What is done
  mkdir P           ok              make a directory
  create P          ok              make an empty file
  write P OFF HEX   count N         write bytes into a file, from OFF on
  read P OFF N      bytes HEX       read at most N bytes of a file, from OFF on
  truncate P LEN    ok              cut a file, or lengthen it by zeros, to LEN
  stat P            dir 0 M         ask whether P is a directory or a file,
                    file N M        of N bytes, and for its mtime
  readdir P         names K         list a directory of K entries:
                    d NAME          one line for each directory in it,
                    f NAME          and for each file
  rename P P        ok              move a file, or a directory with all below
  unlink P          ok              remove a file
  rmdir P           ok              remove an empty directory
  rmtree P          ok              remove a file, or a directory with all below
  at M              ok              set the mtime that the lines that follow
                                    give to what they change; 0 before
  snapshot S        ok              take a snapshot of the tree, under a name
  restore S         ok              replace the tree by that of a snapshot
  drop S            ok              delete a snapshot
  read@S P OFF N    as read         read in a snapshot: so do stat@S and readdir@S

  A line that fails changes nothing and is answered by a line such as 'fault
  ENOENT'. A line that is none of these is answered by 'error syntax', and one
  of more than 65536 bytes by 'error line'. --steps, --fanout, --pending and
  --leaf set how the trees behind the file system work; no reply depends on
  them. With --flushers N, if N is above 0, N threads flush the trees beside the
  script, 1000 turns each, and --steps has no effect.

  With --strict the run ends at the first reply that begins with 'fault' or
  'error', with status 1. With --explain standard error says which file could
  not be used and why, and which lines were not understood.

Images:
  --image prints the whole tree as text after the replies, from the line 'D / M'
  on, and --load starts with the tree of such a text. So a tree can be saved in
  a file and loaded again, without its snapshots.

  betr --image first | sed -n '/^D \\/ /,$p' > saved
  betr --load saved second

  A file that has the replies too is no image: --explain says at which line
  the image begins.

Drawings:
  --dot draws both trees into a file, with the snapshots that share them.

  betr --dot trees.dot script && dot -Tsvg trees.dot > trees.svg

Example:
  printf 'mkdir /a\\ncreate /a/x\\nwrite /a/x 0 6869\\nreaddir /a\\n' | betr

  prints

  ok
  ok
  count 2
  names 1
  f x";
