// Nest: messages into frames.
ghost use Rattle.messages.specs.Paper.Message.{command, climate};
ghost use Rattle.messages.specs.Paper.Says.{of_response};
ghost use Rattle.messages.specs.Work.Answers.{Only};
ghost use Rattle.commands.specs.Work.Answers.{WritesMessage};

use builds::nest;
use digits::low_first;
use layouts::nest::Direction;
use messages::nest::Response;
use puts::Written;

// Writes the frame of a command.
pub(crate) fn write_command(id: u16, payload: &[u8], room: &mut [u8]) -> Written
    ensures { WritesMessage (Only (command id payload.now)) room.old result room.new }
{
    nest::frame(Direction::Command, id, payload, room)
}

// Writes the frame of a response with this payload beside it.
pub(crate) fn write(message: Response, payload: &[u8], room: &mut [u8]) -> Written
    ensures { WritesMessage (Only (of_response message payload.now)) room.old result room.new }
{
    match message {
        Response::Climate {
            temperature,
            humidity,
        } => write_climate(temperature, humidity, room),
        Response::State => nest::frame(Direction::Response, 0x000B, payload, room),
        Response::Break => nest::frame(Direction::Response, 0x0001, b"BRK", room),
        Response::End => nest::frame(Direction::Response, 0x002F, b"", room),
        Response::Text { id } => nest::frame(Direction::Response, id, payload, room),
        Response::Other { id } => nest::frame(Direction::Response, id, payload, room),
    }
}

fn write_climate(temperature: i16, humidity: u16, room: &mut [u8]) -> Written
    ensures { WritesMessage (Only (climate temperature humidity)) room.old result room.new }
{
    let t = temperature.to_le_bytes();
    let h = low_first::two(humidity);
    nest::frame(Direction::Response, 0x0002, &[t[0], t[1], h[0], h[1]], room)
}
