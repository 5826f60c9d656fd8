// The part of the C that is the same in every program: what it includes, its words, its input and
// its `main`; its operators are strc_emit_operators'.

/// What comes first: libraries, and what the compiler isn't to tell: unused names, and helper
/// functions that call themselves until they fault.
pub(crate) const HEAD: &[u8] = b"\
#include <errno.h>\n\
#include <stdint.h>\n\
#include <stdio.h>\n\
#include <stdlib.h>\n\
#include <string.h>\n\
\n\
#if defined(__GNUC__)\n\
#define APART __attribute__((noinline))\n\
#pragma GCC diagnostic ignored \"-Wunused-function\"\n\
#pragma GCC diagnostic ignored \"-Wunused-parameter\"\n\
#pragma GCC diagnostic ignored \"-Wunused-variable\"\n\
#pragma GCC diagnostic ignored \"-Wunused-but-set-variable\"\n\
#else\n\
#define APART\n\
#endif\n\
#if defined(__clang__)\n\
#pragma clang diagnostic ignored \"-Wself-assign\"\n\
#elif defined(__GNUC__) && __GNUC__ >= 12\n\
#pragma GCC diagnostic ignored \"-Winfinite-recursion\"\n\
#endif\n\
\n";

/// Names of faults and statuses, and the variables of a run.
pub(crate) const STATE: &[u8] = b"\
\n\
// Why a firing faults, by the names that are written.\n\
enum { NO_FAULT, DIV_ZERO, INDEX, PEEK_RANGE, TURNS, CALLS };\n\
static const char *const cause_names[] = {\n    \
\"\", \"DivZero\", \"Index\", \"PeekRange\", \"Turns\", \"Calls\",\n\
};\n\
\n\
// How many turns of loops and calls a firing may make, and how many calls may run at once.\n\
enum { TURN_LIMIT = 1000000, CALL_LIMIT = 64 };\n\
\n\
// The exit statuses.\n\
enum { DONE = 0, WORDS = 1, REFUSED = 2, FAULT = 3, NO_MEMORY = 4, FAILED = 5 };\n\
\n\
// The words of a tape as text, and how much of it is of the rounds before the one that runs.\n\
struct tape {\n    \
char *text;\n    \
size_t length, room, before;\n\
};\n\
\n\
static struct tape tapes[NODES];\n\
\n\
// The tape of a number.\n\
static struct tape *tape_numbered(int number) { return &tapes[tape_nodes[number].node]; }\n\
\n\
static int in_round;\n\
static uint64_t round_number;\n\
\n\
// The numbers of the program's input, and how many have been read.\n\
static int32_t *input;\n\
static size_t input_length, input_room, taken;\n\
\n\
// What a firing counts that calls helper functions, and which firing it is.\n\
static int32_t turns, depth;\n\
static uint32_t this_node;\n\
static uint64_t this_firing;\n\
\n\
// What is read where a filter has no input, and written where it has no output: nothing.\n\
static int32_t nothing[1];\n\
\n";

/// A test of indices, and moves of items.
pub(crate) const MOVES: &[u8] = b"\
static inline int outside(int32_t index, int32_t length) { return index < 0 || index >= length; }\n\
static inline void clear(int32_t *array, size_t length) {\n    \
memset(array, 0, length * sizeof *array);\n\
}\n\
static inline void copy_items(int32_t *to, const int32_t *from, size_t count) {\n    \
memcpy(to, from, count * sizeof *to);\n\
}\n\
\n\
// So many items that are left move to the front, from behind those that were taken.\n\
static inline void slide(int32_t *items, size_t gone, size_t left) {\n    \
memmove(items, items + gone, left * sizeof *items);\n\
}\n\
\n";

/// Words, tapes and faults.
pub(crate) const WORDS: &[u8] = b"\
// Writes what is left to be written: a status, or that of a failed output.\n\
static int ended(int status) {\n    \
if (fflush(stdout) != 0 || ferror(stdout)) {\n        \
fputs(\"writing the output to standard output failed\\n\", stderr);\n        \
return FAILED;\n    \
}\n    \
return status;\n\
}\n\
\n\
static _Noreturn void end(int status) { exit(ended(status)); }\n\
\n\
// Memory was refused for words or for the run.\n\
static _Noreturn APART void out_of_memory(void) {\n    \
fputs(\"refused S3 NoMemory\\n\", stdout);\n    \
end(NO_MEMORY);\n\
}\n\
\n\
// Makes room for a word on a tape.\n\
static APART void make_room(struct tape *tape) {\n    \
size_t room = tape->room == 0 ? 4096 : tape->room * 2;\n    \
char *text = room > tape->room ? realloc(tape->text, room) : NULL;\n    \
if (text == NULL) {\n        \
out_of_memory();\n    \
}\n    \
tape->text = text;\n    \
tape->room = room;\n\
}\n\
\n\
// Prints a word on the tape of a node: a number, and a line feed where it ends a line.\n\
static void print(uint32_t node, int32_t value, int ends_line) {\n    \
struct tape *tape = &tapes[node];\n    \
char digits[12];\n    \
size_t at = sizeof digits;\n    \
uint32_t left = value < 0 ? 0u - (uint32_t)value : (uint32_t)value;\n    \
if (tape->room - tape->length < sizeof digits) {\n        \
make_room(tape);\n    \
}\n    \
if (ends_line) {\n        \
digits[--at] = '\\n';\n    \
}\n    \
do {\n        \
digits[--at] = (char)('0' + left % 10);\n        \
left /= 10;\n    \
} while (left != 0);\n    \
if (value < 0) {\n        \
digits[--at] = '-';\n    \
}\n    \
memcpy(tape->text + tape->length, digits + at, sizeof digits - at);\n    \
tape->length += sizeof digits - at;\n\
}\n\
\n\
// Writes a tape; closed, its last line ends.\n\
static void write_tape(const struct tape *tape, int closed) {\n    \
if (tape->length == 0) {\n        \
return;\n    \
}\n    \
fwrite(tape->text, 1, tape->length, stdout);\n    \
if (closed && tape->text[tape->length - 1] != '\\n') {\n        \
fputc('\\n', stdout);\n    \
}\n\
}\n\
\n\
// Writes all tapes: one alone as it is, several each after its line.\n\
static void write_tapes(int closed) {\n    \
if (TAPES == 1) {\n        \
write_tape(tape_numbered(0), closed);\n        \
return;\n    \
}\n    \
for (int number = 0; number < TAPES; number++) {\n        \
printf(\"tape %d node %lu %s\\n\", number, (unsigned long)tape_nodes[number].node,\n               \
tape_nodes[number].name);\n        \
write_tape(tape_numbered(number), 1);\n    \
}\n\
}\n\
\n\
// A round begins: the words that are there stay, should one of its firings fault.\n\
static void keep_words(void) {\n    \
for (int number = 0; number < TAPES; number++) {\n        \
tape_numbered(number)->before = tape_numbered(number)->length;\n    \
}\n\
}\n\
\n\
// A firing faulted: the words of the rounds before are written, and where it was.\n\
static _Noreturn APART void fault(int cause, uint32_t node, uint64_t firing) {\n    \
for (int number = 0; number < TAPES; number++) {\n        \
tape_numbered(number)->length = tape_numbered(number)->before;\n    \
}\n    \
write_tapes(1);\n    \
printf(\"fault %s node %lu firing %llu \", cause_names[cause], (unsigned long)node,\n           \
(unsigned long long)firing);\n    \
if (in_round) {\n        \
printf(\"round %llu\\n\", (unsigned long long)round_number);\n    \
} else {\n        \
printf(\"startup\\n\");\n    \
}\n    \
end(FAULT);\n\
}\n\
\n\
// A helper function faults.\n\
static _Noreturn APART void leave(int cause) { fault(cause, this_node, this_firing); }\n\
\n\
// The number of a firing, of which so many were before the first round, and are in each.\n\
static inline uint64_t firing_of(int32_t number, uint64_t before, uint64_t each) {\n    \
return before + (uint64_t)number + round_number * each;\n\
}\n\
\n\
// A firing begins that may call helper functions.\n\
static inline void enter(uint32_t node, uint64_t firing) {\n    \
this_node = node;\n    \
this_firing = firing;\n    \
turns = 0;\n    \
depth = 0;\n\
}\n";

/// Reading the input.
pub(crate) const INPUT: &[u8] = b"\
\n\
// A word of the input is no number.\n\
static _Noreturn void bad_input(void) {\n    \
printf(\"refused S6 BadInput word %zu\\n\", input_length);\n    \
end(REFUSED);\n\
}\n\
\n\
// One more number of the input.\n\
static void put_number(int32_t value) {\n    \
if (input_length == input_room) {\n        \
size_t room = input_room == 0 ? 1024 : input_room * 2;\n        \
int32_t *more = NULL;\n        \
if (room > input_room && room <= SIZE_MAX / sizeof *more) {\n            \
more = realloc(input, room * sizeof *more);\n        \
}\n        \
if (more == NULL) {\n            \
fputs(\"out of memory\\n\", stderr);\n            \
exit(NO_MEMORY);\n        \
}\n        \
input = more;\n        \
input_room = room;\n    \
}\n    \
input[input_length++] = value;\n\
}\n\
\n\
// Whether a byte is white space.\n\
static int is_space(unsigned char byte) {\n    \
return byte == ' ' || byte == '\\t' || byte == '\\n' || byte == '\\f' || byte == '\\r';\n\
}\n\
\n\
// Reads the numbers of standard input: words of an optional `-` and digits, with white space\n\
// between them.\n\
static void read_input(void) {\n    \
static unsigned char piece[65536];\n    \
enum { BETWEEN, SIGN, DIGITS } last = BETWEEN;\n    \
int negative = 0;\n    \
uint64_t value = 0;\n    \
size_t count;\n    \
while ((count = fread(piece, 1, sizeof piece, stdin)) != 0) {\n        \
for (size_t at = 0; at < count; at++) {\n            \
unsigned char byte = piece[at];\n            \
if (is_space(byte)) {\n                \
if (last == SIGN) {\n                    \
bad_input();\n                \
}\n                \
if (last == DIGITS) {\n                    \
put_number((int32_t)(negative ? -(int64_t)value : (int64_t)value));\n                \
}\n                \
last = BETWEEN;\n            \
} else if (byte == '-' && last == BETWEEN) {\n                \
last = SIGN;\n            \
} else if (byte >= '0' && byte <= '9') {\n                \
if (last == DIGITS) {\n                    \
value = value * 10 + (uint64_t)(byte - '0');\n                \
} else {\n                    \
negative = last == SIGN;\n                    \
value = (uint64_t)(byte - '0');\n                    \
last = DIGITS;\n                \
}\n                \
if (value > (negative ? 2147483648u : 2147483647u)) {\n                    \
bad_input();\n                \
}\n            \
} else {\n                \
bad_input();\n            \
}\n        \
}\n    \
}\n    \
if (ferror(stdin)) {\n        \
fputs(\"reading the input from standard input failed\\n\", stderr);\n        \
exit(FAILED);\n    \
}\n    \
if (last == SIGN) {\n        \
bad_input();\n    \
}\n    \
if (last == DIGITS) {\n        \
put_number((int32_t)(negative ? -(int64_t)value : (int64_t)value));\n    \
}\n\
}\n\
\n";

/// How many rounds a run has where their number isn't given.
pub(crate) const SERVED: &[u8] = b"\
\n\
// How many rounds the input serves.\n\
static uint32_t rounds_served(void) {\n    \
uint64_t got = input_length, before = READS_BEFORE, each = READS_A_ROUND;\n    \
if (got < before) {\n        \
return 0;\n    \
}\n    \
if (each == 0 || (got - before) / each > UINT32_MAX) {\n        \
return UINT32_MAX;\n    \
}\n    \
return (uint32_t)((got - before) / each);\n\
}\n\
\n";

/// `main`, and how it reads the number of rounds.
pub(crate) const MAIN: &[u8] = b"\
\n\
// The words aren't those of the program.\n\
static int usage(void) {\n    \
fputs(\"usage: program [--rounds N] < input\\n\", stderr);\n    \
return WORDS;\n\
}\n\
\n\
// A number of rounds, 0 to 4294967295, or none.\n\
static int read_rounds(const char *word, uint32_t *rounds) {\n    \
uint64_t value = 0;\n    \
if (*word == '+') {\n        \
word++;\n    \
}\n    \
if (*word == 0) {\n        \
return 0;\n    \
}\n    \
for (; *word != 0; word++) {\n        \
if (*word < '0' || *word > '9') {\n            \
return 0;\n        \
}\n        \
value = value * 10 + (uint64_t)(*word - '0');\n        \
if (value > UINT32_MAX) {\n            \
return 0;\n        \
}\n    \
}\n    \
*rounds = (uint32_t)value;\n    \
return 1;\n\
}\n\
\n\
int main(int argc, char **argv) {\n    \
uint32_t rounds = 0;\n    \
int given = 0;\n    \
for (int at = 1; at < argc; at++) {\n        \
const char *word = argv[at];\n        \
if (strcmp(word, \"--rounds\") == 0 && at + 1 < argc) {\n            \
word = argv[++at];\n        \
} else if (strncmp(word, \"--rounds=\", 9) == 0) {\n            \
word += 9;\n        \
} else {\n            \
return usage();\n        \
}\n        \
if (given || !read_rounds(word, &rounds)) {\n            \
return usage();\n        \
}\n        \
given = 1;\n    \
}\n    \
if (READS) {\n        \
read_input();\n    \
}\n    \
if (!given && !READS) {\n        \
fputs(\"refused S5 RoundsNeeded\\n\", stdout);\n        \
end(REFUSED);\n    \
}\n    \
if (!given) {\n        \
rounds = rounds_served();\n    \
}\n    \
uint64_t need = READS_BEFORE + (uint64_t)READS_A_ROUND * rounds;\n    \
if (input_length < need) {\n        \
printf(\"refused S1 InputShort need %llu got %zu\\n\", (unsigned long long)need,\n               \
input_length);\n        \
end(REFUSED);\n    \
}\n    \
run(rounds);\n    \
write_tapes(0);\n    \
return ended(DONE);\n\
}\n";
