use crate::saying::says;
use std::test::Fail;

/// The text of the example `packet`.
const PACKET: &str =
    "-module(packet).\n-export([main/0]).\n\n% The header of an IPv4 packet (RFC 791, section 3.1), and a UDP datagram (RFC 768) inside it.\n\nmain() ->\n    Datagram = <<53:16,4096:16,12:16,0:16,\"dns!\">>,\n    Packet = <<4:4,5:4,0,32:16,7:16,2:3,0:13,64,17,0:16,10,0,0,1,10,0,0,2,Datagram/binary>>,\n    erlang:display(parse(Packet)),\n    erlang:display(parse(<<6:4,0:28>>)),\n    erlang:display(parse(<<4:4,5:4,0,90:16>>)).\n\nparse(<<4:4,Words:4,_:8,Length:16,Id:16,Flags:3,Offset:13,Ttl,Protocol,_Sum:16,\n        Source:4/binary,Target:4/binary,Rest/binary>> = Packet)\n        when Words >= 5, Length >= Words * 4, Length =< byte_size(Packet) ->\n    Options = (Words - 5) * 4,\n    Size = Length - Words * 4,\n    case Rest of\n        <<_:Options/binary,Payload:Size/binary,_/binary>> ->\n            {ok,{Id,Flags,Offset,Ttl},{Source,Target},payload(Protocol,Payload)};\n        _ ->\n            {error,options}\n    end;\nparse(<<4:4,_/bitstring>>) -> {error,short};\nparse(<<Version:4,_/bitstring>>) -> {error,{version,Version}}.\n\npayload(17,<<From:16,To:16,Length:16,_:16,Data/binary>>) when Length =:= byte_size(Data) + 8 ->\n    {udp,From,To,Data};\npayload(Protocol,Data) ->\n    {Protocol,Data}.\n";

/// The text of the example `stream`.
const STREAM: &str =
    "-module(stream).\n-export([main/0]).\n\n% A stream of frames, each with its length in bytes before it, which comes in pieces.\n\nmain() ->\n    Stream = << <<(byte_size(Body)):16,Body/binary>> || Body <- [<<\"one\">>,<<>>,<<\"three\">>] >>,\n    {First,Second} = split_binary(Stream, 6),\n    {Frames,Left} = frames(First, []),\n    {More,Last} = frames(<<Left/binary,Second/binary>>, []),\n    erlang:display(Frames),\n    erlang:display(More),\n    erlang:display({left,byte_size(Last)}).\n\nframes(<<Size:16,Frame:Size/binary,Rest/binary>>, Found) -> frames(Rest, [Frame|Found]);\nframes(Left, Found) -> {lists:reverse(Found),Left}.\n";

/// The text of the example `transcode`.
const TRANSCODE: &str =
    "-module(transcode).\n-export([main/0]).\n\n% UTF-8 to UTF-16 and back (RFC 3629, RFC 2781). A byte that begins no character becomes U+FFFD.\n\nmain() ->\n    Text = <<\"gr\",246/utf8,\"n \",8364/utf8,128512/utf8>>,\n    Wide = to_utf16(Text, <<>>),\n    erlang:display(Wide),\n    erlang:display(to_utf8(Wide) =:= {ok,Text}),\n    erlang:display(to_utf16(<<255,\"a\">>, <<>>)),\n    erlang:display(to_utf8(<<216,0>>)).\n\nto_utf16(<<Char/utf8,Rest/binary>>, Done) -> to_utf16(Rest, <<Done/binary,Char/utf16>>);\nto_utf16(<<_,Rest/binary>>, Done) -> to_utf16(Rest, <<Done/binary,16#fffd/utf16>>);\nto_utf16(<<>>, Done) -> Done.\n\nto_utf8(Wide) ->\n    Narrow = << <<Char/utf8>> || <<Char/utf16>> <= Wide >>,\n    case to_utf16(Narrow, <<>>) of\n        Wide -> {ok,Narrow};\n        _ -> {error,byte_size(Narrow)}\n    end.\n";

/// The text of the example `broker`.
const BROKER: &str =
    "-module(broker).\n-export([main/0,serve/2]).\n\n% A broker that hands each published message to its subscribers; the messages share one binary.\n\nmain() ->\n    Broker = spawn(broker, serve, [[],0]),\n    Broker ! {subscribe,self()},\n    Payload = <<0:800>>,\n    Broker ! {publish,<<1,Payload/binary>>},\n    Broker ! {publish,<<2,21:16/signed-little>>},\n    Broker ! stop,\n    collect(0).\n\ncollect(Seen) ->\n    receive\n        {message,<<1,Payload/binary>>} ->\n            erlang:display({large,byte_size(Payload)}),\n            collect(Seen + 1);\n        {message,<<2,Degrees:16/signed-little>>} ->\n            erlang:display({degrees,Degrees}),\n            collect(Seen + 1);\n        {closed,Count} when Count =:= Seen ->\n            erlang:display({closed,Count})\n    end.\n\nserve(Subscribers, Count) ->\n    receive\n        {subscribe,Pid} when is_pid(Pid) ->\n            serve([Pid|Subscribers], Count);\n        {publish,Message} when is_binary(Message); is_bitstring(Message) ->\n            [Subscriber ! {message,Message} || Subscriber <- Subscribers],\n            serve(Subscribers, Count + 1);\n        stop ->\n            [Subscriber ! {closed,Count} || Subscriber <- Subscribers],\n            ok\n    end.\n";

#[test]
fn the_examples_are_accepted(rt: HostRuntime) -> Result<(), Fail> {
    let alloc = rt.alloc();
    for text in [PACKET, STREAM, TRANSCODE, BROKER] {
        says(&rt, alloc, text, "ok")?;
    }
    Ok(())
}
