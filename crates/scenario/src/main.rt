// Plays the scenarios of the script on standard input: each line sets a number of the calls that follow, puts a frame to
// the gate or prints what the drive has; `stdin` says at its head what the words mean. Frames are made by the client end,
// and `stdout` has the rows and replies that must come, in hexadecimal.
#![tactic(auto)]

use player::Player;
use scene::Scene;
use std::io;
use std::io::Stdout;
use words::Word;

mod frames;
mod player;
mod record;
mod say;
mod scene;
mod script;
mod settings;
mod words;

// A proved loop has to end, and a script can lead back to itself: after so many lines the program gives up.
const LINE_LIMIT: u64 = 100000;

// The script has no more bytes.
const SCRIPT_SIZE: usize = 65536;

// Plays the lines until `stop`, or until there are too many.
fn play(out: Stdout, script: &[u8]) -> io::Result<()> {
    let mut player = Player::new(script);
    let mut scene = Scene::new();
    for _ in 0..LINE_LIMIT {
        player.advance();
        player.show(out, &scene.drive)?;
        if player.word == Some(Word::Stop) {
            return Ok(());
        }
        if let Some(answer) = scene.act(&mut player) {
            if player.settings.quiet == 0 {
                let reply = scene.reply(answer.unwrap_or(0));
                say::answer(out, player.line.label(), rules::row_of(answer), reply)?;
            }
        }
    }
    say::error(out, b"too many lines")
}

fn main(rt: HostRuntime) -> io::Result<()> {
    let mut script = [0u8; SCRIPT_SIZE];
    let n = logged::read_full(rt.stdin(), &mut script);
    play(rt.stdout(), &script[..n])
}
